// Laws over rows of compiled programs.
ghost use Rattle.std.specs.Prelude.{All, List, ◌≤◌};
ghost use Rattle.job_language.specs.declared.steps.Step.{Step};
ghost use Rattle.job_language.specs.declared.tenants.Tenant.{Tenant};
ghost use Rattle.job_language.specs.declared.tenants.TheConstants.{MAX_SLOTS};
ghost use Rattle.tenant_model.specs.Naming.{StepBringsValid};
ghost use Rattle.tenant_model.specs.State.{empty};
ghost use Rattle.source_rows.specs.SourceRows.{AdvancesFollowSource, RowsFollowSource, StepBringsNumbers};
ghost use Rattle.source_rows.specs.Worked.{RootIsAnswered, SummingIsCompiled, TasksAreMade};

/// After any sequence of steps of a tenant, each row of a job whose program is compiled from functions
/// does what a task of theirs does that was answered the same, and a value that it returned is the
/// task's. It does nothing: its contract is the law.
pub fn rows_follow_source()
    ensures { (c : Tenant) (xs : List Step) → c.slots ≤ MAX_SLOTS → c.reserved ≤ c.slots
        → All StepBringsValid xs → All StepBringsNumbers xs → RowsFollowSource (empty c) xs }
{}

/// What such a row executes next is what its task does next: a private run ends at the task's next
/// operation, with the task's numbers, or at its division by 0, or it yields. It does nothing: its
/// contract is the law.
pub fn advances_follow_source()
    ensures { (c : Tenant) (xs : List Step) → c.slots ≤ MAX_SLOTS → c.reserved ≤ c.slots
        → All StepBringsValid xs → All StepBringsNumbers xs
        → AdvancesFollowSource (empty c) xs }
{}

/// The worked example of a region and a task, on two slots. It does nothing: its contract is the
/// law.
pub fn worked_example()
    ensures compiled { SummingIsCompiled }
    ensures root { RootIsAnswered }
    ensures tasks { TasksAreMade }
{}
