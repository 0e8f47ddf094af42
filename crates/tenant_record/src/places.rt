// Where the passes of a tenant's slots are.
ghost use Rattle.std.specs.Prelude.{◌≡◌, ◌<◌, ◌≤◌, IfOk, Some, None, if◌then◌else◌, not, slice_set, find, length, option_map, IfSome};
ghost use Rattle.std.specs.List.{range_with_len};
ghost use Rattle.tenant_record.specs.PassData.{has_room, goes_home};
ghost use Rattle.tenant_record.specs.Places.{HasRoomFor, place, is_home, is_told_full, pass_in, is_worker_home, is_in, is_other_out, is_one_out, other_out, due_place, due_after, arrived_pass, arrived_place, taken, placed_pass, returned, woken, first_places};
ghost use Rattle.tenant_record.specs.Replayed.{state_of};
ghost use Rattle.tenant_record.specs.declared.places.Place.{Place};

use crate::passes::{Pass, goes_home};
use crate::replay::Replay;
use job_language::{Came, Moved};
use std::alloc::{AllocError, Global};
use std::mem;

/// Where the pass of a slot is.
pub(crate) enum Place {
    Home(Pass),
    /// The pass is home, and a worker is called to its slot.
    Due(Pass),
    Out,
}

impl Drop for Place {
    fn drop(self) {
        match self {
            Place::Home(pass) | Place::Due(pass) => pass.end(),
            Place::Out => {}
        }
    }
}

impl Place {
    fn is_home(&self) -> bool
        ensures { result ≡ is_home self.now }
    {
        matches!(self, Place::Home(_))
    }

    /// Whether the pass is there.
    fn is_in(&self) -> bool
        ensures { result ≡ is_in self.now }
    {
        match self {
            Place::Home(_) | Place::Due(_) => true,
            Place::Out => false,
        }
    }

    /// Whether the pass is there and reports a full history.
    pub(crate) fn is_told_full(&self) -> bool
        ensures { result ≡ is_told_full self.now }
    {
        match self {
            Place::Home(pass) | Place::Due(pass) => pass.is_full(),
            Place::Out => false,
        }
    }

    /// The pass, if it is there.
    fn pass(&self) -> Option<&Pass>
        ensures { option_map (λ pass. pass.now) result ≡ pass_in self.now }
    {
        match self {
            Place::Home(pass) | Place::Due(pass) => Some(pass),
            Place::Out => None,
        }
    }

    /// Takes the pass out, if it is there.
    fn into_pass(self) -> Option<Pass>
        ensures { result ≡ pass_in self }
    {
        match self {
            Place::Home(pass) | Place::Due(pass) => Some(pass),
            Place::Out => None,
        }
    }

    /// The place to which a worker is called.
    fn due(self) -> Place
        ensures { result ≡ due_place self }
    {
        match self {
            Place::Home(pass) => Place::Due(pass),
            place => place,
        }
    }
}

/// The places of a tenant that has done nothing yet: each pass is home.
pub(crate) fn first_places(
    alloc: Global,
    tenant: usize,
    limit: usize,
    slots: u8,
) -> Result<Vec<Place>, AllocError>
    ensures { IfOk result (λ home. home.items ≡ first_places tenant limit slots) }
{
    let mut home = Vec::with_capacity(alloc, usize::from(slots))?;
    for slot in 0..slots {
        home.push(Place::Home(Pass::new(alloc, tenant, limit, slot)?))?;
    }
    Ok(home)
}

/// Whether the log of the pass of a slot has room, if the pass is home.
pub(crate) fn room_at(home: &[Place], slot: u8) -> Option<bool>
    ensures room { result ≡ option_map has_room (pass_in (place home.now slot)) }
    ensures within { IfSome result (λ _. slot < length home.now) }
{
    let pass = pass_at(home, slot)?;
    Some(pass.has_room())
}

/// The pass of a slot, if it is home.
pub(crate) fn pass_at(home: &[Place], slot: u8) -> Option<&Pass>
    ensures { option_map (λ pass. pass.now) result ≡ pass_in (place home.now slot) }
{
    home.get(slot as usize)?.pass()
}

/// Whether no pass of these slots is out but that of one slot.
pub(crate) fn is_one_out(home: &[Place], slots: u8, slot: u8) -> bool
    ensures { result ≡ is_one_out slots home.now slot }
{
    other_out(home, slots, slot).is_none()
}

fn other_out(home: &[Place], slots: u8, slot: u8) -> Option<u8>
    ensures { result ≡ other_out slots home.now slot }
{
    (0..slots).find(|other| is_other_out(home, slot, *other))
}

#[tactic(auto, unfolding(crate::specs::Places::is_other_out))]
fn is_other_out(home: &[Place], slot: u8, other: u8) -> bool
    ensures { result ≡ is_other_out home.now slot other }
{
    other != slot && is_out(home, other)
}

/// Whether the pass of a slot is out.
pub(crate) fn is_out(home: &[Place], slot: u8) -> bool
    ensures { result ≡ not (is_in (place home.now slot)) }
{
    match home.get(slot as usize) {
        Some(place) => !place.is_in(),
        None => true,
    }
}

/// Puts a place in place of another one, and gives that.
fn replace(home: &mut [Place], slot: u8, new: Place) -> Place
    requires { slot < length home.old }
    ensures value { result ≡ place home.old slot }
    ensures home { home.new ≡ slice_set home.old slot new }
{
    mem::replace(&mut home[slot as usize], new)
}

/// Puts a pass home.
pub(crate) fn put(home: &mut [Place], pass: Pass)
    requires { pass.slot < length home.old }
    ensures { home.new ≡ slice_set home.old pass.slot (Place.Home pass) }
{
    let slot = pass.slot();
    let _left = replace(home, slot, Place::Home(pass));
}

/// Puts the pass home, if it goes there after an advance with that answer, and else gives it back.
pub(crate) fn keep(home: &mut [Place], pass: Pass, moved: Moved) -> Option<Pass>
    requires { pass.slot < length home.old }
    ensures pass { result ≡ (if goes_home moved then None else Some pass) }
    ensures home { home.new ≡ returned home.old pass moved }
{
    if !goes_home(moved) {
        return Some(pass);
    }
    put(home, pass);
    None
}

/// Gives the pass of a slot to an arrival that found a row. After any other arrival a slot is not due.
pub(crate) fn admit(home: &mut [Place], slot: u8, came: Came) -> Option<Pass>
    requires slot { slot < length home.old }
    requires room { HasRoomFor came home.old slot }
    ensures pass { result ≡ arrived_pass came (pass_in (place home.old slot)) }
    ensures home { home.new ≡ slice_set home.old slot (arrived_place came (place home.old slot)) }
{
    let mut pass = replace(home, slot, Place::Out).into_pass()?;
    match came {
        Came::At(row) => {
            pass.tell_arrival(row);
            Some(pass)
        }
        Came::Nothing | Came::Full => {
            let _out = replace(home, slot, Place::Home(pass));
            None
        }
    }
}

/// Gives out the pass of the slot where a job was placed, if one was.
pub(crate) fn hand_out(home: &mut [Place], placed: Option<u8>) -> Option<Pass>
    requires { IfSome placed (λ slot. slot < length home.old) }
    ensures pass { result ≡ placed_pass placed home.old }
    ensures home { home.new ≡ taken placed home.old }
{
    let mut pass = replace(home, placed?, Place::Out).into_pass()?;
    pass.tell_placed();
    Some(pass)
}

/// Makes the lowest slot for workers due whose pass is home with nobody called, if a row waits after
/// an entry.
pub(crate) fn call(home: &mut [Place], replay: &Replay, has_entered: bool) -> Option<u8>
    requires { length home.old ≡ replay.now.config.slots }
    ensures due { result ≡ due_after has_entered replay.now.config (state_of replay.now) home.old }
    ensures home { home.new ≡ woken result home.old }
{
    if !has_entered || !replay.has_unstarted() {
        return None;
    }
    let config = replay.config();
    let slot = lowest_home(home, config.reserved, config.slots)?;
    wake(home, slot);
    Some(slot)
}

/// Makes a slot due, if its pass is home.
fn wake(home: &mut [Place], slot: u8)
    requires { slot < length home.old }
    ensures { home.new ≡ slice_set home.old slot (due_place (place home.old slot)) }
{
    let place = replace(home, slot, Place::Out);
    let _out = replace(home, slot, place.due());
}

fn lowest_home(home: &[Place], reserved: u8, slots: u8) -> Option<u8>
    ensures { result ≡ find (is_worker_home reserved home.now) (range_with_len 0 slots) }
{
    (0..slots).find(|slot| is_worker_home(reserved, home, *slot))
}

#[tactic(auto, unfolding(crate::specs::Places::is_worker_home))]
fn is_worker_home(reserved: u8, home: &[Place], slot: u8) -> bool
    ensures { result ≡ is_worker_home reserved home.now slot }
{
    if slot < reserved {
        return false;
    }
    match home.get(slot as usize) {
        Some(place) => place.is_home(),
        None => false,
    }
}
