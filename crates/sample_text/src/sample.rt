ghost use Rattle.std.specs.Prelude.{◌≡◌, ◌≤◌, IfOk, IsTrue, length};
ghost use Rattle.hw_module.specs.Checked.{DriversFit, IsChecked};
ghost use Rattle.module_netlist.specs.Written.{out_count, thing_count};

use hw_expr::Net;
use hw_module::{Module, ModuleFault};
use hw_pool::{Pool, PoolFault};
use std::alloc::AllocError;
use thiserror::Error;

/// A module with the pool that its nets are of.
#[derive(Debug, Drop)]
pub struct Sample {
    pub circuit: Module,
    pub pool: Pool,
}

/// Why no module was made.
#[derive(Clone, Copy, Debug, PartialEq, Eq, Error)]
pub enum SampleRefusal {
    /// Memory was refused.
    #[error("out of memory")]
    NoMemory,
    /// A net or a driver does not fit.
    #[error("the sample has a part that does not fit")]
    Misfit,
    /// A thing has no driver.
    #[error("the sample has a thing without a driver")]
    Undriven(ModuleFault),
    /// The module has more things than a text may have.
    #[error("the sample has too many things")]
    TooMany,
}

impl From<AllocError> for SampleRefusal {
    fn from(_error: AllocError) -> SampleRefusal {
        SampleRefusal::NoMemory
    }
}

impl From<PoolFault> for SampleRefusal {
    fn from(fault: PoolFault) -> SampleRefusal {
        match fault {
            PoolFault::Full { .. } => SampleRefusal::TooMany,
            PoolFault::NoMemory => SampleRefusal::NoMemory,
        }
    }
}

/// How many of the ports have a driver.
#[tactic(auto, using(crate::proofs::Counts::out_few))]
fn driven(outs: &[Option<Net>]) -> usize
    requires few { length outs.now ≤ 30 }
    ensures count { result ≡ out_count outs.now }
    ensures bound { result ≤ length outs.now }
{
    match outs {
        [] => 0,
        [None, rest @ ..] => driven(rest),
        [Some(_net), rest @ ..] => driven(rest) + 1,
    }
}

/// Whether a module has no more things than a text may have.
#[tactic(auto, using(crate::proofs::Counts::out_few))]
fn is_few(m: &Module, pool: &Pool) -> bool
    ensures { IsTrue result → thing_count m.now pool.now ≤ 65535 }
{
    let (wires, regs, arrays) = (m.wires().len(), m.regs().len(), m.arrays().len());
    if wires > 65_535 || regs > 65_535 || arrays > 65_535 {
        return false;
    }
    let outs = driven(m.outs().as_slice());
    pool.live() as usize + 2 * (wires + regs + arrays) + outs <= 65_535
}

/// A module and its pool, where each thing has a driver and they are few enough.
pub(crate) fn checked(m: Module, pool: Pool) -> Result<Sample, SampleRefusal>
    requires { DriversFit m pool }
    ensures checked { IfOk result (λ s. IsChecked s.circuit s.pool) }
    ensures few { IfOk result (λ s. thing_count s.circuit s.pool ≤ 65535) }
{
    if !is_few(&m, &pool) {
        return Err(SampleRefusal::TooMany);
    }
    match m.check(&pool) {
        Ok(()) => Ok(Sample { circuit: m, pool }),
        Err(fault) => Err(SampleRefusal::Undriven(fault)),
    }
}
