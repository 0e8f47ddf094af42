// The slots of one tenant.
ghost use Rattle.std.specs.Prelude.{◌≡◌, ◌<◌, ◌≤◌, length, IfOk, IfSome, slice_index_or, slice_set};
ghost use Rattle.job_language.specs.declared.tenants.TheConstants.{MAX_SLOTS};
ghost use Rattle.world_model.specs.declared.calls.SlotState.TheVariants.{Reserved};
ghost use Rattle.world_model.specs.Market.{is_home, lowest_home};
ghost use Rattle.market.specs.First.{first_slots};
ghost use Rattle.market.specs.Slots.{woken};

use market_config::MarketTenant;
use std::alloc::{AllocError, Global};
use std::marker::Model;
use world_model::SlotState;

/// Where the slots of a tenant are, numbered from 0: the reserved ones first.
#[derive(Drop)]
pub struct SlotStates {
    states: Vec<SlotState>,
}

impl Model for SlotStates {
    ghost use Rattle.std.specs.Prelude.{List, length, ◌≤◌};
    ghost use Rattle.job_language.specs.declared.tenants.TheConstants.{MAX_SLOTS};
    ghost use Rattle.world_model.specs.declared.calls.SlotState.{SlotState};

    ghost Value = { List SlotState };

    ghost view = { λ s. s.states.items };

    ghost invariant = { λ s. length s.states.items ≤ MAX_SLOTS };
}

fn is_home(state: SlotState) -> bool
    ensures { result ≡ is_home state }
{
    matches!(state, SlotState::Home)
}

impl SlotStates {
    /// The slots of a tenant for which nothing was done yet.
    #[tactic(auto, using(crate::proofs::Homes::first_row))]
    pub fn new(alloc: Global, tenant: MarketTenant) -> Result<SlotStates, AllocError>
        requires { (tenant.slots ≤ MAX_SLOTS) × (tenant.reserved ≤ tenant.slots) }
        ensures { IfOk result (λ s. s ≡ first_slots tenant) }
    {
        let mut states = Vec::with_capacity(alloc, usize::from(tenant.slots))?;
        states.resize(usize::from(tenant.reserved), SlotState::Reserved)?;
        states.resize(usize::from(tenant.slots), SlotState::Home)?;
        Ok(SlotStates { states })
    }

    /// Where a slot is; one that the tenant does not have is for nobody.
    pub fn state(&self, slot: u8) -> SlotState
        ensures { result ≡ slice_index_or self.now slot Reserved }
    {
        match self.states.get(usize::from(slot)) {
            Some(state) => *state,
            None => SlotState::Reserved,
        }
    }

    /// Says where a slot is from now on.
    pub fn set(&mut self, slot: u8, state: SlotState)
        requires { slot < length self.old }
        ensures { self.new ≡ slice_set self.old slot state }
    {
        self.states[usize::from(slot)] = state;
    }

    /// The lowest slot at home.
    #[tactic(auto, using(crate::proofs::Homes::home_next, crate::proofs::Homes::home_here, crate::proofs::Homes::home_none))]
    fn home(&self) -> Option<u8>
        ensures lowest { result ≡ lowest_home 0 self.now }
        ensures there { IfSome result (λ s. s < length self.now) }
    {
        for slot in 0..self.states.len() {
            if is_home(self.states[slot]) {
                return Some(slot as u8);
            }
        }
        None
    }

    /// The lowest slot at home, if there is one, becomes due.
    pub fn wake(&mut self) -> Option<u8>
        ensures slot { result ≡ lowest_home 0 self.old }
        ensures state { self.new ≡ woken self.old (lowest_home 0 self.old) }
    {
        let slot = self.home()?;
        self.states[usize::from(slot)] = SlotState::Due;
        Some(slot)
    }
}
