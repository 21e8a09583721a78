// Pauses, in which one caller does the duties of all control loops.
use crate::cluster::Cluster;
use std::sync::atomic::Ordering;

/// A pause of a cluster, which ends where this is dropped. All who rest are woken then.
pub struct Pause<'a> {
    cluster: &'a Cluster,
}

impl<'a> Pause<'a> {
    pub(crate) fn begin(cluster: &'a Cluster) -> Pause<'a> {
        cluster.pauses.fetch_add(1, Ordering::SeqCst);
        Pause { cluster }
    }
}

impl Drop for Pause<'_> {
    fn drop(self) {
        let Self { cluster } = self;
        cluster.pauses.fetch_sub(1, Ordering::SeqCst);
        cluster.idle.notify_all();
    }
}
