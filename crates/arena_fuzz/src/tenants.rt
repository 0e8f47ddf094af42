// Tenants that are drawn.
use job_language::{
    Isolation, Level, MAX_ROWS, MAX_SLOTS, MAX_STEPS, Tenant, TenantConfig, TenantName,
};
use rand::RngExt;
use rand_pcg::Pcg32;

/// A tenant with few slots in most cases, in either mode of isolation, and often with limits so low that
/// its jobs meet them.
pub(crate) fn draw_tenant(draws: &mut Pcg32) -> Option<TenantConfig> {
    let slots = draw_slots(draws);
    let tenant = Tenant {
        name: TenantName::new("acme")?,
        priority: Level::Normal,
        isolation: draw_isolation(draws),
        slots,
        reserved: draws.random_range(0..=slots),
        rows: draw_rows(draws),
        steps: draw_steps(draws),
    };
    TenantConfig::new(tenant)
}

fn draw_slots(draws: &mut Pcg32) -> u8 {
    match draws.random_range(0u8..8) {
        0 => draws.random_range(1..=MAX_SLOTS),
        1..=2 => 1,
        _ => draws.random_range(2u8..=4),
    }
}

fn draw_isolation(draws: &mut Pcg32) -> Isolation {
    if draws.random_range(0u8..2) == 0 {
        Isolation::Exact
    } else {
        Isolation::Within
    }
}

fn draw_rows(draws: &mut Pcg32) -> usize {
    match draws.random_range(0u8..8) {
        0 => draws.random_range(1usize..=8),
        1 => draws.random_range(9usize..=40),
        2 => MAX_ROWS,
        _ => draws.random_range(300usize..=500),
    }
}

fn draw_steps(draws: &mut Pcg32) -> usize {
    match draws.random_range(0u8..8) {
        0 => draws.random_range(1usize..=400),
        _ => MAX_STEPS,
    }
}
