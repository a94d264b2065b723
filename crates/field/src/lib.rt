// A field of a document, its six changes, and the eight words that show it.
#![tactic(auto)]

ghost use Rattle.std.specs.Prelude.{◌≡◌, ◌≢◌, ◌≤◌, true, cond, ◌++◌, leb, length, drop, IfOk, MatchResult};
ghost use Rattle.rules.specs.Limits.{member_limit, words_per_field};
ghost use Rattle.rules.specs.Values as S;
ghost use Rattle.rules.specs.Values.{values_of, show};
ghost use Rattle.rules.specs.Changes as C;
ghost use Rattle.rules.specs.Changes.{pull_all, change, kind_of};
ghost use Rattle.field.specs.declared.Misfit.TheVariants.{WrongKind};
ghost use Rattle.field.specs.View.{view_field, view_changed, field_form, number_kind};

// Absent (count 0), a number (count 1) or a list of count values. Values that do not count are 0.
// Every method holds of other fields too, as the view reads them.
#[derive(Clone, Copy)]
pub struct Field {
    pub kind: u8, // no enum: any plant can be given to the entry, so that there are kinds above LIST, which the form forbids
    pub count: u8,
    pub values: [i32; Field::LIMIT],
}

// Why a change does not fit the field.
#[derive(Clone, Copy, PartialEq, Eq)]
pub enum Misfit {
    WrongKind,
    SeventhMember,
    SumTooLarge,
}

// The changes by their numbers. A pull has the last one, and any other is taken for it.
pub const SET: u8 = 1;

pub const UNSET: u8 = 2;

const INC: u8 = 3;

const ADD: u8 = 4;

const PUSH: u8 = 5;

// The ends of a number's range, which are those of its type.
pub const LOWEST: i64 = -2147483648;

pub const HIGHEST: i64 = 2147483647;

const _: () = prove!(LOWEST == i32::MIN as i64 && HIGHEST == i32::MAX as i64);

// Where the kind, the count and the values stand among a field's words.
const KIND_AT: usize = 0;

const COUNT_AT: usize = 1;

const VALUES_AT: usize = 2;

impl Field {
    pub const ABSENT: u8 = 0;

    pub const NUMBER: u8 = 1;

    pub const LIST: u8 = 2;

    pub const LIMIT: usize = 6;

    pub const WORDS: usize = 8;

    pub fn empty() -> Self
        ensures shows { view_field result ≡ S.absent }
        ensures form { field_form result ≡ true }
    {
        Self {
            kind: Field::ABSENT,
            count: 0,
            values: [0; Field::LIMIT],
        }
    }

    pub fn number(v: i32) -> Self
        ensures shows { view_field result ≡ S.number v }
        ensures form { field_form result ≡ true }
    {
        Self {
            kind: Field::NUMBER,
            count: 1,
            values: [v, 0, 0, 0, 0, 0],
        }
    }

    // The values that count.
    fn members(&self) -> &[i32]
        ensures shows { result.now ≡ values_of (view_field self.now) }
        ensures few { length result.now ≤ member_limit }
    {
        match self.kind {
            Field::ABSENT => &[],
            Field::NUMBER => &self.values[..1],
            _ => lists::used(&self.values, self.count),
        }
    }

    // The members, where the field is no number; absent is the empty list.
    fn list(&self) -> Result<&[i32], Misfit>
        ensures { MatchResult result
            (λ l. (self.now.kind ≢ number_kind) × (l.now ≡ values_of (view_field self.now)))
            (λ e. (self.now.kind ≡ number_kind) × (e ≡ WrongKind)) }
    {
        match self.kind {
            Field::NUMBER => Err(Misfit::WrongKind),
            _ => Ok(self.members()),
        }
    }

    // The list of the values that do not equal v.
    fn without(self, v: i32) -> Self
        ensures shows { view_field result ≡ S.list (pull_all v (values_of (view_field self))) }
        ensures form { field_form self ≡ true → field_form result ≡ true }
    {
        let mut kept = [0i32; Field::LIMIT];
        let mut n = 0u8;
        for x in self.members() {
            if *x != v {
                lists::push(&mut kept, &mut n, *x);
            }
        }
        Self {
            kind: Field::LIST, // still a list, be it empty
            count: n,
            values: kept,
        }
    }

    // v added to a number; absent is 0.
    fn inc(self, v: i32) -> Result<Field, Misfit>
        ensures shows { view_changed result ≡ change C.inc v (view_field self) }
        ensures form { IfOk result (λ g. field_form self ≡ true → field_form g ≡ true) }
    {
        match self.kind {
            Field::ABSENT => Ok(Field::number(v)),
            Field::NUMBER => {
                let sum = self.values[0].checked_add(v).ok_or(Misfit::SumTooLarge)?;
                Ok(Field::number(sum))
            }
            _ => Err(Misfit::WrongKind),
        }
    }

    // v put last.
    fn push(self, v: i32) -> Result<Field, Misfit>
        ensures shows { view_changed result ≡ change C.push v (view_field self) }
        ensures form { IfOk result (λ g. field_form self ≡ true → field_form g ≡ true) }
    {
        let n = self.list()?.len();
        if Field::LIMIT <= n {
            return Err(Misfit::SeventhMember);
        }
        let mut values = self.values;
        values[n] = v;
        Ok(Field {
            kind: Field::LIST,
            count: (n + 1) as u8,
            values,
        })
    }

    // v put last where it is no member yet.
    fn add(self, v: i32) -> Result<Field, Misfit>
        ensures shows { view_changed result ≡ change C.add v (view_field self) }
        ensures form { IfOk result (λ g. field_form self ≡ true → field_form g ≡ true) }
    {
        if self.list()?.contains(&v) {
            return Ok(self);
        }
        self.push(v)
    }

    // Every member that equals v taken out: a list stays a list, be it empty, and absent stays absent.
    fn pull(self, v: i32) -> Result<Field, Misfit>
        ensures shows { view_changed result ≡ change C.pull v (view_field self) }
        ensures form { IfOk result (λ g. field_form self ≡ true → field_form g ≡ true) }
    {
        match self.kind {
            Field::ABSENT => Ok(self),
            Field::NUMBER => Err(Misfit::WrongKind),
            _ => Ok(self.without(v)),
        }
    }

    // The change of a number, made to the field.
    pub fn changed(self, kind: u8, v: i32) -> Result<Field, Misfit>
        ensures shows { view_changed result ≡ change (kind_of kind) v (view_field self) }
        ensures form { IfOk result (λ g. field_form self ≡ true → field_form g ≡ true) }
    {
        match kind {
            SET => Ok(Field::number(v)),
            UNSET => Ok(Field::empty()),
            INC => self.inc(v),
            ADD => self.add(v),
            PUSH => self.push(v),
            _ => self.pull(v),
        }
    }

    // Shows the field in the first eight of the lent words, or in none where fewer are lent.
    pub fn write(self, words: &mut [i32])
        ensures { words.new ≡ cond (leb words_per_field (length words.old)) (show (view_field self) ++ drop words_per_field words.old) words.old }
    {
        if words.len() < Field::WORDS {
            return;
        }
        let members = self.members();
        let end = VALUES_AT + members.len();
        words[KIND_AT] = self.kind.min(Field::LIST) as i32;
        words[COUNT_AT] = members.len() as i32;
        words[VALUES_AT..end].copy_from_slice(members);
        words[end..Field::WORDS].fill(0);
    }
}
