//! What is made: interfaces, cores, links, dispatchers, services.

ghost use Rattle.fl_world_refines.specs.Laws.{InterfacesAgree, CoresAgree, LinksAgree, DispatchersAgree, ExportsAgree};

/// An interface that is added in a world is the machine's.
pub fn law_interfaces_agree()
    ensures agree { InterfacesAgree }
{}

/// The cores that a world begins with are the machine's.
pub fn law_cores_agree()
    ensures agree { CoresAgree }
{}

/// A dispatcher that is added in a world is the machine's.
pub fn law_dispatchers_agree()
    ensures agree { DispatchersAgree }
{}

/// A service that is exported in a world is the machine's.
pub fn law_exports_agree()
    ensures agree { ExportsAgree }
{}

/// A link that is made in a world is the machine's.
pub fn law_links_agree()
    ensures agree { LinksAgree }
{}
