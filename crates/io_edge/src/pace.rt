/// A hook that is called before the calls of a run's workers, by which a test may hold a worker.
///
/// Workers and their calls are counted from 0. A worker calls `before` before each of its calls of a
/// table, with its own number and the number of the call, which goes on over the whole run. The service
/// worker calls it once a round, before it begins to serve, with the number of workers and the number of
/// the round.
///
/// It has no say in any clause: what is promised of a run is the same under every pace.
pub trait Pace: Sync {
    /// Comes just before that call of that worker, or before that round of the service worker.
    fn before(&self, worker: u32, call: u64);
}

/// The pace that holds nobody.
#[derive(Clone, Copy, Debug)]
pub struct NoPace;

impl Pace for NoPace {
    fn before(&self, _worker: u32, _call: u64) {}
}
