// A world whose tenants are known by their names.
ghost use Rattle.std.specs.Prelude.{◌≡◌, ℕ, List, map, IfOk, OnErr, option_map, Some};
ghost use Rattle.serde_json.specs.View.{view};
ghost use Rattle.job_json.specs.ConfigOf.{config_of};
ghost use Rattle.request_reader.specs.Exact.{ExactOrNoMemory};
ghost use Rattle.request_reader.specs.LineAsks.{IsText};
ghost use Rattle.request_reader.specs.LineConfigs.{config_in};
ghost use Rattle.world_model.specs.World.{World as Known};
ghost use Rattle.world_core.specs.RawOf.{raw_of as stepped};
ghost use Rattle.world_script.specs.RawLines.{raw_line, line, master, push};
ghost use Rattle.world_script.specs.Named.{raw_of, slot_named, tenant_named};
ghost use Rattle.world_script.specs.Spelled.{data_of};
ghost use Rattle.world_script.specs.Knowing.{Knows, Starts};
ghost use Rattle.world_script.specs.Takes.{step_in, told, outcome_text, held_text, TakesRaw, TakesStep};

use crate::raw_lines::{RawLine, raw_line};
use job_language::TenantName;
use market_config::{Call, names_of};
use reply_writer::{MarketAnswer, ReplyBuf, answer_line, bad_step_line, market_line};
use request_reader::{config_in, value_in};
use serde_json::Value;
use std::alloc::{AllocError, Global};
use std::marker::Model;
use world_core::{Raw, TenantArena, World};
use world_model::Outcome;

/// A world whose tenants are known by their names.
pub struct NamedWorld<A: TenantArena> {
    names: Vec<TenantName>,
    world: World<A>,
}

impl<A: TenantArena> Drop for NamedWorld<A> {
    // An owner drops it in one call, not part by part at each of its ways out.
    fn drop(self) {
        let NamedWorld {
            names: _names,
            world: _world,
        } = self;
    }
}

impl<A: TenantArena> Model for NamedWorld<A> {
    ghost use Rattle.world_script.specs.Knowing.{Named};

    ghost Value = { Named A };

    ghost view = { λ w. record { names = w.names.items; world = w.world } };
}

impl<A: TenantArena> NamedWorld<A> {
    /// The world of a script's first line, if that is a configuration. It fails only if an allocation
    /// failed.
    pub fn read(alloc: Global, line: &[u8]) -> Result<Option<NamedWorld<A>>, AllocError>
        ensures { IfOk result (λ world. Starts A.stands_for (config_in line.now) world) }
    {
        let Some(config) = config_in(alloc, line)? else {
            return Ok(None);
        };
        let names = names_of(alloc, config.tenants())?;
        let world = World::new(alloc, config)?;
        Ok(Some(NamedWorld { names, world }))
    }

    /// Takes the step of a line, and gives its outcome; a line that is no step has none. It fails only
    /// if an allocation failed, and then nothing has changed.
    pub fn take(&mut self, alloc: Global, line: &[u8]) -> Result<Option<Outcome>, AllocError>
        ensures taken { (names : List (List ℕ)) (w : Known) → Knows A.stands_for names w self.old
            → IfOk result (λ outcome. (v : Known)
            × (TakesStep names (step_in line.now) w outcome v
            × Knows A.stands_for names v self.new)) }
        ensures refused { OnErr result (self.new ≡ self.old) }
    {
        match value_in(alloc, line)? {
            Some(value) => self.take_value(alloc, &value),
            None => Ok(None),
        }
    }

    fn take_value(&mut self, alloc: Global, value: &Value) -> Result<Option<Outcome>, AllocError>
        ensures taken { (names : List (List ℕ)) (w : Known) → Knows A.stands_for names w self.old
            → IfOk result (λ outcome. (v : Known)
            × (TakesStep names (raw_line (view value.now)) w outcome v
            × Knows A.stands_for names v self.new)) }
        ensures refused { OnErr result (self.new ≡ self.old) }
    {
        match raw_line(value) {
            Some(step) => Ok(Some(self.take_step(alloc, &step)?)),
            None => Ok(None),
        }
    }

    fn take_step(&mut self, alloc: Global, step: &RawLine) -> Result<Outcome, AllocError>
        ensures taken { (names : List (List ℕ)) (w : Known) → Knows A.stands_for names w self.old
            → IfOk result (λ outcome. (v : Known)
            × (TakesRaw (raw_of names (data_of step.now)) w outcome v
            × Knows A.stands_for names v self.new)) }
        ensures refused { OnErr result (self.new ≡ self.old) }
    {
        match raw_of(alloc, self.names.as_slice(), step)? {
            Some(raw) => Ok(self.apply(alloc, raw)),
            None => Ok(Outcome::NotNow),
        }
    }

    fn apply(&mut self, alloc: Global, raw: Raw) -> Outcome
        ensures { (names : List (List ℕ)) (w : Known) → Knows A.stands_for names w self.old
            → (v : Known)
            × (TakesRaw (Some (stepped raw)) w result v × Knows A.stands_for names v self.new) }
    {
        self.world.apply(alloc, &raw)
    }

    /// The line that tells an outcome, or that there is none.
    pub fn told(&self, outcome: Option<Outcome>) -> ReplyBuf
        ensures { result ≡ told self.now.names outcome }
    {
        match outcome {
            Some(outcome) => outcome_line(self.names.as_slice(), outcome),
            None => bad_step_line(),
        }
    }
}

/// The number of the tenant of a name.
fn tenant_named(names: &[TenantName], name: &str) -> Option<usize>
    ensures { result ≡ tenant_named names.now name.now }
{
    names
        .iter()
        .position(|own| name.as_bytes() == own.as_bytes())
}

/// A slot of a tenant, if the tenant is there. No slot has a number above 255.
fn slot_of(names: &[TenantName], name: &str, slot: u64) -> Option<Call>
    ensures { option_map (λ call. (call.tenant, call.slot)) result
        ≡ slot_named names.now name.now slot }
{
    let tenant = tenant_named(names, name)?;
    if slot > u64::from(u8::MAX) {
        return None;
    }
    Some(Call {
        tenant,
        slot: slot as u8,
    })
}

/// The step of a world, if its tenant is there.
fn raw_of(alloc: Global, names: &[TenantName], step: &RawLine) -> Result<Option<Raw>, AllocError>
    ensures { IfOk result (λ raw. option_map stepped raw ≡ raw_of names.now (data_of step.now)) }
{
    match *step {
        RawLine::Line(name, text) => line_of(alloc, names, name, text),
        RawLine::Master(name, slot) => Ok(master_of(names, name, slot)),
        RawLine::Push(name, slot) => Ok(push_of(names, name, slot)),
        RawLine::Pop(worker) => Ok(Some(Raw::Pop(worker as usize))),
        RawLine::Arrive(worker) => Ok(Some(Raw::Arrive(worker as usize))),
        RawLine::Advance(worker) => Ok(Some(Raw::Advance(worker as usize))),
    }
}

fn line_of(
    alloc: Global,
    names: &[TenantName],
    name: &str,
    text: &str,
) -> Result<Option<Raw>, AllocError>
    ensures { IfOk result (λ raw. option_map stepped raw
        ≡ raw_of names.now (line name.now text.now)) }
{
    let Some(tenant) = tenant_named(names, name) else {
        return Ok(None);
    };
    Ok(Some(Raw::Line(tenant, text.as_bytes().to_vec(alloc)?)))
}

fn master_of(names: &[TenantName], name: &str, slot: u64) -> Option<Raw>
    ensures { option_map stepped result ≡ raw_of names.now (master name.now slot) }
{
    let call = slot_of(names, name, slot)?;
    Some(Raw::Master(call.tenant, call.slot))
}

fn push_of(names: &[TenantName], name: &str, slot: u64) -> Option<Raw>
    ensures { option_map stepped result ≡ raw_of names.now (push name.now slot) }
{
    let call = slot_of(names, name, slot)?;
    Some(Raw::Push(call.tenant, call.slot))
}

fn outcome_line(names: &[TenantName], outcome: Outcome) -> ReplyBuf
    ensures { result ≡ outcome_text names.now outcome }
{
    match outcome {
        Outcome::Own(answer) => answer_line(&answer),
        Outcome::Queued => market_line(&MarketAnswer::Queued),
        Outcome::Held(call) => held_line(names, call),
        Outcome::NoCall => market_line(&MarketAnswer::NoCall),
        Outcome::NotNow => market_line(&MarketAnswer::NotNow),
    }
}

/// The line of a call that a worker was handed.
fn held_line(names: &[TenantName], call: Call) -> ReplyBuf
    ensures { result ≡ held_text names.now call }
{
    match names.get(call.tenant) {
        Some(name) => market_line(&MarketAnswer::Held(call.slot, *name)),
        None => market_line(&MarketAnswer::NotNow),
    }
}
