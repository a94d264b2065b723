// What calls were told, printed into lent bytes: a line for each, and one for a line of input that says no call.
#![tactic(auto)]

ghost use Rattle.std.specs.Prelude.{◌*◌, ◌≤◌, ◌≡◌, true, length, take};
ghost use Rattle.line_format.specs.Lines.{faulty};
ghost use Rattle.plant.specs.View.{kept_plant};
ghost use Rattle.plant.specs.declared.Plant.{Plant};
ghost use Rattle.answers.specs.View.{view_refusal};
ghost use Rattle.line_print.specs.Line.{longest};
ghost use Rattle.line_answer.specs.Answered.{Answered, Put, told_lines, refused_line};

use answers::Refusal;
use calls::Calls;
use entry::Told;
use line_print::WORDS;

// Prints what the first n calls were told, one line after the other. Each shows the first of the words that were lent to it, and to each were
// lent those of the longest key.
pub fn tell_all(n: usize, told: [Told; Calls::LIMIT], words: &[i32], out: &mut [u8]) -> usize
    ensures within { result ≤ length out.old }
    ensures lines { longest * length (take n told) ≤ length out.old → Put (longest * length (take n told)) (told_lines (take n told) words.now) out.old out.new result }
{
    let mut wrote: usize = 0;
    let mut i: usize = 0;
    let mut at: usize = 0;
    while i < Calls::LIMIT {
        if n <= i {
            return wrote;
        }
        let t = told[i];
        let answer = t.answer;
        let next = at + WORDS.min(words.len() - at);
        wrote += line_print::answer(answer, &words[at..next], t.shown, &mut out[wrote..]);
        i += 1;
        at = next;
    }
    wrote
}

// Prints the refusal of a line that says no call.
pub fn refuse(r: Refusal, out: &mut [u8]) -> usize
    ensures answers { (p : Plant) → longest ≤ length out.old → kept_plant p ≡ true → Answered (faulty (view_refusal r)) p (take result out.new) p }
    ensures within { result ≤ length out.old }
    ensures line { longest ≤ length out.old → Put longest (refused_line r) out.old out.new result }
{
    let none = [0i32; 1];
    line_print::answer(Err(r), &none, 0, out)
}
