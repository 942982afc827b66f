//! The bag: what ends sent each other.

ghost use Rattle.std.specs.Prelude.{◌≡◌, ◌<◌, ◌≤◌, ◌++◌, ◌∷◌, [], Some, length, IfOk, IfSome, option_copied, slice_get};
ghost use Rattle.end_links.specs.Bounds.{send_limit};
ghost use Rattle.world_moves.specs.declared.bag.BagUnit.{BagUnit as AnyUnit};
ghost use Rattle.wire_base.specs.Numbers.{AreBytes};
ghost use Rattle.world_moves.specs.Bag.{first_waiting, settle_at, AreShortPieces, AreShortUnits, HaveBytes, pieces_of};

use crate::links::LinkKind;
use std::alloc::Global;
use std::marker::Model;
use wire_base::{Blob, Frames, List, NoMemory};

/// The most bytes of one event.
const PIECE_LIMIT: usize = 65_536;

/// What one end sent to another: its bytes, the number and the kind of the link that it was sent on, whether it was
/// sent by the end that accepted the link, and whether it was delivered or lost.
#[derive(Debug, Drop)]
pub struct BagUnit {
    pub bytes: Blob,
    pub link: u32,
    pub kind: LinkKind,
    pub back: bool,
    pub is_settled: bool,
}

/// All units that were sent, in order. The first one that was neither delivered nor lost isn't sought from the front:
/// those before a place are known to be settled. None has more bytes than an end sends at once.
#[derive(Drop)]
pub struct Bag {
    units: Vec<BagUnit>,
    settled: usize,
}

impl Model for Bag {
    ghost use Rattle.std.specs.Prelude.{List as list};
    ghost use Rattle.world_moves.specs.declared.bag.BagUnit.{BagUnit as AnyUnit};
    ghost use Rattle.world_moves.specs.Bag.{AreSettled, AreShortUnits, HaveBytes};

    ghost Value = { list AnyUnit };

    ghost view = { λ b. b.units.items };

    ghost invariant = { λ b.
        AreSettled b.settled b.units.items × AreShortUnits b.units.items × HaveBytes b.units.items };
}

impl Bag {
    /// No units.
    #[tactic(auto, using(crate::proofs::BagLaws::none_settled, crate::proofs::BagLaws::none_long, crate::proofs::BagLaws::none_other))]
    pub(crate) fn new(alloc: Global) -> Bag
        ensures { result ≡ [] }
    {
        Bag {
            units: Vec::new(alloc),
            settled: 0,
        }
    }

    /// How many there are.
    pub(crate) fn len(&self) -> usize
        ensures { result ≡ length self.now }
    {
        self.units.len()
    }

    /// None has more bytes than an end sends at once. It is called so that this is known.
    pub(crate) fn units_are_short(&self)
        ensures { AreShortUnits self.now }
    {
        let _count = self.units.len();
    }

    /// Each has bytes. It is called so that this is known.
    pub(crate) fn units_have_bytes(&self)
        ensures { HaveBytes self.now }
    {
        let _count = self.units.len();
    }

    /// The unit of that number. None exactly where there is none.
    pub(crate) fn get(&self, number: usize) -> Option<&BagUnit>
        ensures unit { option_copied result ≡ slice_get self.now number }
        ensures short { (unit : AnyUnit) → slice_get self.now number ≡ Some unit →
            length unit.bytes ≤ send_limit }
    {
        self.units.get(number)
    }

    /// The units and one more. Want of memory drops them.
    #[tactic(auto, using(crate::proofs::BagLaws::settled_add, crate::proofs::BagLaws::units_add, crate::proofs::BagLaws::bytes_add))]
    pub(crate) fn add(self, unit: BagUnit) -> Result<Bag, NoMemory>
        requires { length unit.bytes ≤ send_limit }
        ensures { IfOk result (λ bag. bag ≡ self ++ unit ∷ []) }
    {
        let Bag { mut units, settled } = self;
        are_bytes(unit.bytes.bytes());
        units.push(unit)?;
        Ok(Bag { units, settled })
    }

    /// The number of the first unit that was neither delivered nor lost. None exactly where there is none.
    #[tactic(auto, using(crate::proofs::BagLaws::seeking))]
    pub(crate) fn seek_waiting(&mut self) -> Option<usize>
        ensures number { result ≡ first_waiting self.old }
        ensures inside { IfSome result (λ number. number < length self.old) }
        ensures same { self.new ≡ self.old }
    {
        let mut place = self.settled;
        while place < self.units.len() && self.units[place].is_settled {
            place += 1;
        }
        self.settled = place;
        if place < self.units.len() {
            Some(place)
        } else {
            None
        }
    }

    /// The unit of that number counts as delivered or lost.
    #[tactic(auto, using(crate::proofs::BagLaws::settle_keeps, crate::proofs::BagLaws::units_settle, crate::proofs::BagLaws::bytes_settle))]
    pub(crate) fn settle(&mut self, number: usize)
        requires { number < length self.old }
        ensures { self.new ≡ settle_at number self.old }
    {
        self.units[number].is_settled = true;
    }
}

/// A slice of bytes has bytes. It is called so that this is known.
fn are_bytes(bytes: &[u8])
    ensures { AreBytes bytes.now }
{
    let _count = bytes.len();
}

/// The pieces in which bytes come: each as long as one may be, but for the last.
#[tactic(auto, using(crate::proofs::BagLaws::cutting))]
pub(crate) fn pieces(alloc: Global, bytes: &[u8]) -> Result<Frames, NoMemory>
    requires { length bytes.now ≤ send_limit }
    ensures value { IfOk result (λ pieces. pieces ≡ pieces_of bytes.now) }
    ensures short { IfOk result (λ pieces. AreShortPieces pieces) }
    ensures few { IfOk result (λ pieces. length pieces ≤ 9) }
{
    let mut pieces = Frames::new(alloc);
    for piece in bytes.chunks(PIECE_LIMIT) {
        pieces.push(Blob::copy(alloc, piece)?)?;
    }
    Ok(pieces)
}
