// What a read or a write answered, told apart.
ghost use Rattle.std.specs.Prelude.{◌≡◌, ℤ, Err};
ghost use Rattle.std.specs.IoError.{error_kind, os_error_kind};
ghost use Rattle.std.specs.declared.io.Error.{Error};
ghost use Rattle.kagbitu.specs.Transfer.{failed_by, passing, passing_kind, transfer_of};

use std::io;
use std::io::ErrorKind;

// So many bytes moved, at most as many as were lent; none, at the end of input; none yet, so that the same is asked again; or it failed.
#[derive(Clone, Copy)]
pub enum Transfer {
    Moved(usize),
    End,
    Again,
    Failed(io::Error),
}

// Whether the same is asked again after an error of this kind.
fn is_passing(kind: ErrorKind) -> bool
    ensures kind { result ≡ passing_kind kind }
    ensures number { (code : ℤ) → kind ≡ os_error_kind code → result ≡ passing code }
{
    matches!(kind, ErrorKind::Interrupted | ErrorKind::WouldBlock)
}

pub fn told(answer: io::Result<usize>, lent: usize) -> Transfer
    ensures told { result ≡ transfer_of answer lent }
    ensures number { (error : Error) (code : ℤ) → answer ≡ Err error → error_kind error ≡ os_error_kind code → result ≡ failed_by (passing code) error }
{
    let n = match answer {
        Ok(n) => n,
        Err(error) => {
            if is_passing(error.kind()) {
                return Transfer::Again;
            }
            return Transfer::Failed(error);
        }
    };
    if n == 0 {
        return Transfer::End;
    }
    if n < lent {
        return Transfer::Moved(n);
    }
    Transfer::Moved(lent)
}
