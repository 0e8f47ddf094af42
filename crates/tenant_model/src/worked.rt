// The worked examples, as laws that compute.
ghost use Rattle.tenant_model.specs.Worked.{FirstJobIsComplete, IsolatedWaiterKeepsItsCell, IsolatedWaiterKeepsItsCellWithin, PlainWaiterMayLoseItsCell, PostLeavesItsRegion, StolenTaskKeepsItsRegion, FibTakes85Advances, FibNests24Times, FibCosts172, FibNeeds172, CancelledGroupTellsOnce, ChainReachesHeight128, ChainIsTooDeep, WaiterLeavesInnerRegion, WaiterTakesInnerRegion, RetiredJobIsForgotten, ReleasedJobIsForgotten};

/// What tenants are answered in the worked examples, by the definitions alone. It does nothing: its
/// contract is the law.
pub fn worked_examples()
    ensures first_job_is_complete { FirstJobIsComplete }
    ensures isolated_waiter_keeps_its_cell { IsolatedWaiterKeepsItsCell }
    ensures isolated_waiter_keeps_its_cell_within { IsolatedWaiterKeepsItsCellWithin }
    ensures plain_waiter_may_lose_its_cell { PlainWaiterMayLoseItsCell }
    ensures post_leaves_its_region { PostLeavesItsRegion }
    ensures stolen_task_keeps_its_region { StolenTaskKeepsItsRegion }
    ensures fib_takes_85_advances { FibTakes85Advances }
    ensures fib_nests_24_times { FibNests24Times }
    ensures fib_costs_172 { FibCosts172 }
    ensures fib_needs_172 { FibNeeds172 }
    ensures cancelled_group_tells_once { CancelledGroupTellsOnce }
    ensures chain_reaches_height_128 { ChainReachesHeight128 }
    ensures chain_is_too_deep { ChainIsTooDeep }
    ensures waiter_leaves_inner_region { WaiterLeavesInnerRegion }
    ensures waiter_takes_inner_region { WaiterTakesInnerRegion }
    ensures retired_job_is_forgotten { RetiredJobIsForgotten }
    ensures released_job_is_forgotten { ReleasedJobIsForgotten }
{}
