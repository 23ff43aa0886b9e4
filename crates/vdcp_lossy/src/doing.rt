//! What can be done with a burst, and how that is thrown.
ghost use Rattle.std.specs.Prelude.{◌≡◌, ◌≢◌, ◌<◌, ◌≤◌, ◌∷◌, List, length, true, IfSome};
ghost use Rattle.vdcp_auto.specs.declared.burst.Way.{Way};
ghost use Rattle.vdcp_frame.specs.Burst.{messages_of};
ghost use Rattle.vdcp_frame.specs.Message.{Content, content_of};
ghost use Rattle.vdcp_lossy.specs.Doings.{CanBe, CanBeForged, IsForged, receipt_message};

use crate::dice::Dice;
use arrayvec::ArrayVec;
use vdcp_auto::Way;
use vdcp_frame::{Message, Messages};
use vdcp_world::can_become;

/// A burst of more bytes is lost.
pub const MOST_BYTES: usize = 1024;

pub type HeldBurst = ArrayVec<u8, 1024>;

/// Chances of 100, each 0 to 100, and of the bursts that those before it spare. `forge` is of answers alone, and of
/// exchanges without one.
#[derive(Clone, Copy, Debug, PartialEq, Eq)]
pub struct Chances {
    pub lose: u8,
    pub copy: u8,
    pub cut: u8,
    pub damage: u8,
    pub forge: u8,
}

#[derive(Drop)]
pub enum Doing {
    Through,
    Lost,
    /// It is lost since its exchange has taken too long.
    Late,
    /// It goes on twice; a command once, if it is too late for the copy.
    Copied,
    /// Only this many of its first bytes go on.
    Cut(usize),
    /// These bytes go on in its place.
    Damaged(HeldBurst),
    Forged(Receipt),
}

/// What a forged answer says.
#[derive(Clone, Copy)]
pub enum Receipt {
    Ack,
    Nak(u8),
}

impl Receipt {
    pub fn message(self) -> Message<'static>
        ensures { content_of result ≡ receipt_message self }
    {
        match self {
            Receipt::Ack => Message::Ack,
            Receipt::Nak(byte) => Message::Nak(byte),
        }
    }
}

#[derive(Clone, Copy)]
enum Throw {
    Through,
    Lost,
    Copied,
    Cut,
    Damaged,
    Forged,
}

// The first chance that hits counts.
fn throw_chances(dice: &mut Dice, chances: &Chances, way: Way) -> Throw
    ensures { way ≡ Way.Down → result ≢ Throw.Forged }
{
    if dice.hits(chances.lose) {
        return Throw::Lost;
    }
    if dice.hits(chances.copy) {
        return Throw::Copied;
    }
    if dice.hits(chances.cut) {
        return Throw::Cut;
    }
    if dice.hits(chances.damage) {
        return Throw::Damaged;
    }
    if way == Way::Up && dice.hits(chances.forge) {
        return Throw::Forged;
    }
    Throw::Through
}

impl Doing {
    pub fn of_burst(dice: &mut Dice, chances: &Chances, way: Way, came: &[u8]) -> Doing
        requires some { 0 < length came.now }
        requires held { length came.now ≤ MOST_BYTES }
        ensures { CanBe way came.now result }
    {
        match throw_chances(dice, chances, way) {
            Throw::Through => Doing::Through,
            Throw::Lost => Doing::Lost,
            Throw::Copied => copied(way, came),
            Throw::Cut => cut(dice, came),
            Throw::Damaged => damaged(dice, came),
            Throw::Forged => Doing::Forged(throw_receipt(dice)),
        }
    }

    /// The receipt that is forged for a command without an answer, if one is.
    pub fn of_nothing(dice: &mut Dice, chances: &Chances) -> Option<Doing>
        ensures { IfSome result IsForged }
    {
        match throw_chances(dice, chances, Way::Up) {
            Throw::Forged => Some(Doing::Forged(throw_receipt(dice))),
            Throw::Through | Throw::Lost | Throw::Copied | Throw::Cut | Throw::Damaged => None,
        }
    }
}

// Two copies go up as one burst, of which the first message is heard: so it must have one.
fn copied(way: Way, came: &[u8]) -> Doing
    ensures { CanBe way came.now result }
{
    match way {
        Way::Down => Doing::Copied,
        Way::Up if begins_with_message(came) => Doing::Copied,
        Way::Up => Doing::Through,
    }
}

fn begins_with_message(burst: &[u8]) -> bool
    ensures { result ≡ true → (m : Content) × (more : List Content) × (messages_of burst.now ≡ m ∷ more) }
{
    Messages::of(burst).next().is_some()
}

// At least one byte goes on, and not all; so a burst of one byte is lost.
fn cut(dice: &mut Dice, came: &[u8]) -> Doing
    requires { 0 < length came.now }
    ensures { (way : Way) → CanBe way came.now result }
{
    if came.len() == 1 {
        return Doing::Lost;
    }
    let count = 1 + dice.below(came.len() - 1);
    if can_become(came, &came[..count]) {
        Doing::Cut(count)
    } else {
        Doing::Lost
    }
}

// One to three bytes are changed. What couldn't be seen to be damaged is lost instead.
fn damaged(dice: &mut Dice, came: &[u8]) -> Doing
    requires some { 0 < length came.now }
    requires held { length came.now ≤ MOST_BYTES }
    ensures { (way : Way) → CanBe way came.now result }
{
    let mut bytes = HeldBurst::new();
    bytes.try_extend_from_slice(came).unwrap();
    let changes = 1 + dice.below(3);
    for _ in 0..changes {
        let place = dice.below(came.len());
        bytes[place] = dice.below(256) as u8;
    }
    if bytes.as_slice() != came && can_become(came, bytes.as_slice()) {
        Doing::Damaged(bytes)
    } else {
        Doing::Lost
    }
}

fn throw_receipt(dice: &mut Dice) -> Receipt
    ensures { CanBeForged Way.Up result }
{
    if dice.below(2) == 0 {
        Receipt::Ack
    } else {
        Receipt::Nak(dice.below(256) as u8)
    }
}
