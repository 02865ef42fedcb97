ghost use Rattle.std.specs.Prelude.{◌≡◌, true, Some};
ghost use Rattle.service_reg.specs.declared.service.Service.TheVariants as service;
ghost use Rattle.service_ports.specs.Ports.{fetch_ports};
ghost use Rattle.service_ports.specs.Registry.{offer_of};
ghost use Rattle.plug_part.specs.Owned.{offers};

use plug_build::Builder;
use service_ports::{FetchPorts, Registry};

/// The ports of Fetch that the entry offers. It takes no memory.
pub(crate) fn own_ports(b: &Builder, reg: &Registry) -> FetchPorts
    requires offers { offers reg.now b.now.entry service.Fetch ≡ true }
    ensures { offer_of reg.now b.now.entry service.Fetch ≡ Some (fetch_ports result) }
{
    let _ = b;
    reg.fetch().unwrap()
}
