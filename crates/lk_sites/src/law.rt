//! The laws of sites.

ghost use Rattle.lk_sites.specs.Law.{NodesFoundLaw, SitesFoundLaw, SitesLaw, SitesOrderLaw};

/// The laws of the sites of a ground program, as facts. A call does nothing.
///
/// `sites`: each is a block of the program's text, typed in an instance, and has its label.
///
/// `found`: each query, reading of a table, update and deletion that stands in an instance outside of others is one.
///
/// `nodes`: each query, update and deletion among the nodes of the instances' bodies that stands outside of others is the first
/// node of one of them.
///
/// `ordered`: their labels rise as they are listed, so that each is listed once.
pub fn sites_laws()
    ensures sites { SitesLaw }
    ensures found { SitesFoundLaw }
    ensures nodes { NodesFoundLaw }
    ensures ordered { SitesOrderLaw }
{}
