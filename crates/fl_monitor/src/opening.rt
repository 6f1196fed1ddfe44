//! What an opening asks for.

use crate::path::Path;
use fl_base::IRef;

/// An opening: for which binding a circuit is asked, to which service, and along which route.
#[derive(Clone, Copy, Debug, PartialEq, Eq)]
pub struct Opening {
    /// The binding, by its number, which names it at both ends.
    pub binding: u32,
    /// The service's interface reference.
    pub service: IRef,
    /// The whole route, from the client's core to the service's.
    pub path: Path,
}
