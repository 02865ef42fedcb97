ghost use Rattle.std.specs.Prelude.{◌≡◌, ℕ, Bool};
ghost use Rattle.service_reg.specs.declared.service.Service.{Service};
ghost use Rattle.service_reg.specs.declared.service.Service.TheVariants.{RegFile};
ghost use Rattle.plug_api.specs.Calls.{IsThere};
ghost use Rattle.plug_build.specs.Fits.{WorldFits};
ghost use Rattle.plug_build.specs.World.{part_in, world_of};
ghost use Rattle.plug_hazard.specs.Builds.{BeginsHazard};
ghost use Rattle.plug_hazard.specs.Found.{IsFound};

use hw_expr::Net;
use hw_pool::Pool;
use plug_build::Builder;
use service_ports::Registry;

/// Two forward wires by their numbers, and the nets that are to stand on them.
#[derive(Clone, Copy, Debug)]
pub(crate) struct Found {
    pub(crate) wire_a: u32,
    pub(crate) wire_b: u32,
    pub(crate) a: Net,
    pub(crate) b: Net,
}

/// The forward wires of the first call, and the outputs of RegFile. It takes no memory.
pub(crate) fn find(b: &Builder, pool: &Pool, reg: &Registry) -> Found
    requires fits { WorldFits (world_of pool.now b.now reg.now) }
    requires begun { (takes : Service → Bool) × (bypassed : ℕ → Bool) × BeginsHazard bypassed (part_in takes b.now.entry (world_of pool.now b.now reg.now)) }
    requires there { IsThere reg.now RegFile }
    ensures found { IsFound b.now.entry (world_of pool.now b.now reg.now) result }
    ensures same { (takes : Service → Bool) (bypassed : ℕ → Bool) (begun : BeginsHazard bypassed (part_in takes b.now.entry (world_of pool.now b.now reg.now)))
        → (begun.wire_a ≡ result.wire_a) × (begun.wire_b ≡ result.wire_b) }
{
    let _ = pool;
    let wire_a = b.first_wire().unwrap();
    let regs = reg.regfile().unwrap();
    let rows = b.wires();
    prove!((wire_a as usize) + 1 < rows.len());
    Found {
        wire_a,
        wire_b: wire_a + 1,
        a: regs.a,
        b: regs.b,
    }
}
