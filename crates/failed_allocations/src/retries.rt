// Calls that are made again.

/// What a call gives; it is made again if it gave nothing.
pub(crate) fn again<T, F: Fn() -> Option<T>>(call: F) -> Option<T>
    requires { F.IsAlwaysCallable call }
{
    match call() {
        Some(given) => Some(given),
        None => call(),
    }
}
