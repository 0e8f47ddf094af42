// The limits of the parts are those of the language and of the tenant's model.
use tenant_model::{MAX_HEIGHT, MAX_JOBS};

const _: () = prove!(task_group::GROUPS == job_language::GROUPS);

const _: () = prove!(
    thread_cells::KEYS == job_language::KEYS
        && thread_cells::SLOTS == job_language::MAX_SLOTS as usize
);

const _: () = prove!(nest_stack::MAX_HEIGHT as u64 == MAX_HEIGHT);

// A context for each job that is held, and for each open row one of its own and one for each
// of its groups.
const _: () = prove!(
    cancel_context::BASE_CONTEXTS == MAX_JOBS
        && cancel_context::CONTEXTS_PER_ROW == 1 + job_language::GROUPS
        && cancel_context::MAX_ROWS == job_language::MAX_ROWS
);
