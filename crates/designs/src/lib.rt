// The records of a design, each by itself: what it is refused for, and how it is taken apart. Every call answers every
// argument, but `Stretch::past`, which wants a record that ends within.
#![tactic(auto)]

ghost use Rattle.std.specs.Prelude.{◌≡◌, true, ◌+◌, ◌≤◌, length, get_or, map};
ghost use Rattle.order.specs.Order.{refused_by, first_of};
ghost use Rattle.records.specs.Reading.{length_in, kind_in};
ghost use Rattle.designs.specs.Records.{rule_of, leaf_number, kind_number, known_kind, length_fits, head_no};
ghost use Rattle.designs.specs.Leaves.{cross_no};
ghost use Rattle.designs.specs.Heads.{JudgedAt, TakenApart, Past};
ghost use Rattle.designs.specs.Designs.{size_no};

use feed_sheet::{in_limits, is_permutation};
use order::Refusal;
use records::{field_of_two, present_of};

// Why a design is refused: the refusal, the offset of the record refused, and how many bytes of it are present where it is cut, else 0.
#[derive(Clone, Copy)]
pub struct Fault {
    pub refusal: Refusal,
    pub offset: usize,
    pub present: usize,
}

// The outcome of a check of the record at an offset, which is not cut.
pub fn judged(at: usize, check: Result<(), Refusal>) -> Result<(), Fault>
    ensures { JudgedAt at (refused_by check) result }
{
    check.map_err(|refusal| Fault {
        refusal,
        offset: at,
        present: 0,
    })
}

// What a record is: members one after another, members side by side, or a leaf, which has no members.
#[derive(Clone, Copy)]
pub enum Kind {
    Series,
    Beside,
    Leaf(Leaf),
}

#[derive(Clone, Copy)]
pub enum Leaf {
    Cell,
    Named,
    Cross,
}

// Bytes of a design where they stand: a record's, or those behind its head; the offset of the record; and how much nesting is left.
#[derive(Clone, Copy)]
pub struct Stretch<'a> {
    pub bytes: &'a [u8],
    pub at: usize,
    pub left: usize,
}

// Is the length of the record in front that of its kind? The length of a cross goes by its width byte, 0 where there is none.
#[tactic(auto, unfolding(crate::specs::Records::length_fits))]
fn length_fits(bytes: &[u8]) -> bool
    ensures { result ≡ length_fits (kind_in bytes.now) (length_in bytes.now) (get_or bytes.now 4 0) }
{
    let size = field_of_two(bytes, 0) as usize;
    match field_of_two(bytes, 2) {
        18 => size == 4,
        19 => size == 8,
        20 => size == 5 + (bytes.get(4).copied().unwrap_or(0) as usize),
        _ => 4 <= size,
    }
}

// Is the record in front refused before its members are looked at? Kinds are the numbers of the file here, since one that is none is told too.
// A rule behind another, and no table of them: of a table each would be worked out first, for every small record of a design.
pub fn check_head(bytes: &[u8], left: usize, outermost: bool) -> Result<(), Refusal>
    ensures { refused_by result ≡ head_no left outermost bytes.now }
{
    let n = bytes.len();
    let size = field_of_two(bytes, 0) as usize;
    let kind = field_of_two(bytes, 2);
    let fits = length_fits(bytes);
    if n < 4 {
        return Err(Refusal::HeadCut);
    }
    if !((16 <= kind) & (kind <= 20)) {
        return Err(Refusal::UnknownKind);
    }
    if (kind == 20) & (size < 5) {
        return Err(Refusal::WrongLength);
    }
    if (kind == 20) & (n < 5) {
        return Err(Refusal::BodyCut);
    }
    if !fits {
        return Err(Refusal::WrongLength);
    }
    if outermost & (size < n) {
        return Err(Refusal::WrongLength);
    }
    if n < size {
        return Err(Refusal::BodyCut);
    }
    if left == 0 {
        return Err(Refusal::NestedTooDeep);
    }
    if (kind <= 17) & (size == 4) {
        return Err(Refusal::NoMembers);
    }
    Ok(())
}

// The first refusal whose condition holds.
fn first_of(rules: &[(bool, Refusal)]) -> Result<(), Refusal>
    ensures { refused_by result ≡ first_of (map rule_of rules.now) }
{
    for (when, refusal) in rules {
        if *when {
            return Err(*refusal);
        }
    }
    Ok(())
}

// Is a cross refused?
#[tactic(auto, unfolding(crate::specs::Leaves::cross_no, order::specs::Order::first_of))]
pub fn check_cross(places: &[u8]) -> Result<(), Refusal>
    ensures { refused_by result ≡ cross_no places.now }
{
    if !is_permutation(places) {
        return Err(Refusal::NoPermutation);
    }
    if !in_limits(places.len(), 0) {
        return Err(Refusal::PastLimits);
    }
    Ok(())
}

// Are members of so much size together refused?
#[tactic(auto, unfolding(crate::specs::Designs::size_no))]
pub fn check_size(equal: bool, width: usize, depth: usize) -> Result<(), Refusal>
    ensures { refused_by result ≡ size_no equal width depth }
{
    first_of(&[
        (!equal, Refusal::Unequal),
        (!in_limits(width, depth), Refusal::PastLimits),
    ])
}

// What the record in front is; a number that is no kind's counts as a cross.
fn kind_of(bytes: &[u8]) -> Kind
    ensures { known_kind (kind_in bytes.now) ≡ true → kind_number result ≡ kind_in bytes.now }
{
    match field_of_two(bytes, 2) {
        16 => Kind::Series,
        17 => Kind::Beside,
        18 => Kind::Leaf(Leaf::Cell),
        19 => Kind::Leaf(Leaf::Named),
        _ => Kind::Leaf(Leaf::Cross),
    }
}

impl<'a> Stretch<'a> {
    // What the record in front is, and the bytes behind its head; or why it is refused by its head.
    pub fn take_apart(self, outermost: bool) -> Result<(Kind, Stretch<'a>), Fault>
        ensures { TakenApart self.entry.bytes.now self.entry.at self.entry.left outermost result }
    {
        let bytes = self.bytes;
        check_head(bytes, self.left, outermost).map_err(|refusal| Fault {
            refusal,
            offset: self.at,
            present: present_of(refusal.number(), bytes.len()),
        })?;
        let size = field_of_two(bytes, 0) as usize;
        let inner = Stretch {
            bytes: &bytes[4..size],
            left: self.left - 1,
            ..self
        };
        Ok((kind_of(bytes), inner))
    }

    // What stands behind the record in front, which ends within.
    pub fn past(self) -> Stretch<'a>
        requires within { length_in self.bytes.now ≤ length self.bytes.now }
        requires low { self.at + length self.bytes.now ≤ 65535 }
        ensures { Past self.entry.bytes.now self.entry.at self.entry.left result }
    {
        let size = field_of_two(self.bytes, 0) as usize;
        Stretch {
            bytes: &self.bytes[size..],
            at: self.at + size,
            ..self
        }
    }
}
