// Where things lie in the area: slots and their fields.
ghost use Rattle.std.specs.Prelude.{◌≡◌, ◌+◌, ◌*◌, ◌<◌, ◌≤◌, length};
ghost use Rattle.octets.specs.Octets.{part};
ghost use Rattle.pin_model.specs.Layout.{area_length, latest_in, of_two, key_slot, name_slot, is_used, key_in, key_number, name_length, initial_in, end_in, name_in};
ghost use Rattle.pin_model.specs.Sound.{refers_to};

use crate::minutes;
use crate::minutes::Minutes;
use crate::slot::Slot;

pub const KEY_SLOTS: usize = 64;

pub const NAME_SLOTS: usize = 128;

// Slot numbers: two kinds, so that a key slot can't index the names.
pub type KeySlot = Slot<KEY_SLOTS>;

pub type NameSlot = Slot<NAME_SLOTS>;

// Used 0/1; floor; six zeros; key 64.
pub const KEY_SLOT_LENGTH: usize = 72;

pub const FLOOR_AT: usize = 1;

pub const KEY_AT: usize = 8;

// Used 0/1; key slot number; name length; end present 0/1; initial 4; end 4; four zeros; name, and zeros up to 256.
pub const NAME_SLOT_LENGTH: usize = 272;

const KEY_NUMBER_AT: usize = 1;

const NAME_LENGTH_AT: usize = 2;

pub const END_PRESENT_AT: usize = 3;

const INITIAL_AT: usize = 4;

pub const END_AT: usize = 8;

pub const UNUSED_AT: usize = 12;

pub const NAME_AT: usize = 16;

// The latest clock 4, the edition 0/1, three zeros; the key slots; the name slots: 39,432 bytes.
pub const AREA_LENGTH: usize = NAME_SLOTS_AT + NAME_SLOTS * NAME_SLOT_LENGTH;

pub type Area = [u8; AREA_LENGTH];

pub const LATEST_AT: usize = 0;

pub const EDITION_AT: usize = 4;

pub const KEY_SLOTS_AT: usize = 8;

pub const NAME_SLOTS_AT: usize = KEY_SLOTS_AT + KEY_SLOTS * KEY_SLOT_LENGTH;

// The L bytes from `at`, as an array.
fn part<const L: usize>(s: &[u8], at: usize) -> &[u8; L]
    requires { at + L ≤ length s.now }
    ensures { result.now ≡ part s.now at L }
{
    s[at..at + L].first_chunk::<L>().unwrap()
}

pub fn latest(area: &[u8]) -> Minutes
    requires { length area.now ≡ area_length }
    ensures { result.0 ≡ latest_in area.now }
{
    minutes::minutes_at(area, LATEST_AT)
}

// Whether the table is of edition two.
pub fn is_two(area: &[u8]) -> bool
    requires { length area.now ≡ area_length }
    ensures { result ≡ of_two area.now }
{
    area[EDITION_AT] == 1
}

// Where a slot begins.
pub fn key_place(k: KeySlot) -> usize
    ensures { (result ≡ 8 + 72 * k) × (k < 64) }
{
    KEY_SLOTS_AT + KEY_SLOT_LENGTH * k.number()
}

pub fn name_place(n: NameSlot) -> usize
    ensures { (result ≡ 4616 + 272 * n) × (n < 128) }
{
    NAME_SLOTS_AT + NAME_SLOT_LENGTH * n.number()
}

#[tactic(auto, unfolding(pin_model::specs::Layout::key_slot))]
pub fn key_slot(area: &[u8], k: KeySlot) -> &[u8; KEY_SLOT_LENGTH]
    requires { length area.now ≡ area_length }
    ensures { (result.now ≡ key_slot area.now k) × (k < 64) }
{
    part(area, key_place(k))
}

#[tactic(auto, unfolding(pin_model::specs::Layout::name_slot))]
pub fn name_slot(area: &[u8], n: NameSlot) -> &[u8; NAME_SLOT_LENGTH]
    requires { length area.now ≡ area_length }
    ensures { (result.now ≡ name_slot area.now n) × (n < 128) }
{
    part(area, name_place(n))
}

// Of a slot of either kind.
pub fn is_used(s: &[u8]) -> bool
    requires { 0 < length s.now }
    ensures { result ≡ is_used s.now }
{
    s[0] == 1
}

// Of a key slot.
pub fn key(s: &[u8; KEY_SLOT_LENGTH]) -> &[u8; 64]
    ensures { result.now ≡ key_in s.now }
{
    part(s, KEY_AT)
}

// Of a name slot, as the functions below.
pub fn key_number(s: &[u8; NAME_SLOT_LENGTH]) -> u8
    ensures { result ≡ key_number s.now }
{
    s[KEY_NUMBER_AT]
}

pub fn name_length(s: &[u8; NAME_SLOT_LENGTH]) -> u8
    ensures { result ≡ name_length s.now }
{
    s[NAME_LENGTH_AT]
}

pub fn initial(s: &[u8; NAME_SLOT_LENGTH]) -> Minutes
    ensures { result.0 ≡ initial_in s.now }
{
    minutes::minutes_at(s, INITIAL_AT)
}

pub fn end(s: &[u8; NAME_SLOT_LENGTH]) -> Minutes
    ensures { result.0 ≡ end_in s.now }
{
    minutes::minutes_at(s, END_AT)
}

pub fn name(s: &[u8; NAME_SLOT_LENGTH]) -> &[u8]
    ensures { (result.now ≡ name_in s.now) × (length result.now ≡ name_length s.now) }
{
    let end = NAME_AT + usize::from(name_length(s));
    &s[NAME_AT..end]
}

// The name and the zeros behind it.
pub fn padded_name(s: &[u8; NAME_SLOT_LENGTH]) -> &[u8; 256]
    ensures { result.now ≡ part s.now 16 256 }
{
    part(s, NAME_AT)
}

// Whether it is used and refers to the key slot.
#[tactic(auto, unfolding(pin_model::specs::Sound::refers_to))]
pub fn refers_to(s: &[u8; NAME_SLOT_LENGTH], k: KeySlot) -> bool
    ensures { result ≡ refers_to k s.now }
{
    is_used(s) && usize::from(key_number(s)) == k.number()
}
