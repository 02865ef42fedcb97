ghost use Rattle.std.specs.Prelude.{◌≤◌, IfOk, IfSome};
ghost use Rattle.hw_pool.specs.Nodes.{PoolValue};
ghost use Rattle.hw_module.specs.Checked.{DriversFit, IsChecked};
ghost use Rattle.hw_expr.specs.Nets.{InScope};
ghost use Rattle.hw_module.specs.Scope.{scope_of};
ghost use Rattle.module_netlist.specs.Written.{thing_count};
ghost use Rattle.sample_text.specs.Draft.{IsDraft};

use crate::drivers::{drive, next, output, write};
use crate::nodes::{Make, at, over};
use crate::sample::{Sample, SampleRefusal, checked};
use hw_expr::Net;
use hw_module::Module;
use hw_pool::Pool;
use std::alloc::Global;

/// A module under construction, its pool, and the nets that were made for it, by their places.
#[derive(Drop)]
pub(crate) struct Draft {
    m: Module,
    pool: Pool,
    nets: Vec<Net>,
}

impl Draft {
    /// A module whose things are made, with room for so many nodes.
    pub(crate) fn new(alloc: Global, m: Module, nodes: u32) -> Result<Draft, SampleRefusal>
        requires { (pool : PoolValue) → DriversFit m pool }
        ensures { IfOk result (λ d. IsDraft d.m d.pool d.nets.items) }
    {
        let mut pool = Pool::new(alloc);
        pool.reserve(nodes)?;
        let nets = Vec::with_capacity(alloc, nodes as usize)?;
        Ok(Draft { m, pool, nets })
    }

    /// How many nets were made.
    pub(crate) fn made(&self) -> usize {
        self.nets.len()
    }

    /// Makes a node, and answers the place of its net.
    pub(crate) fn node(&mut self, make: Make) -> Result<usize, SampleRefusal>
        requires { IsDraft self.old.m self.old.pool self.old.nets.items }
        ensures { IsDraft self.new.m self.new.pool self.new.nets.items }
    {
        if self.pool.spare() == 0 {
            return Err(SampleRefusal::TooMany);
        }
        let place = self.nets.len();
        let made = over(&self.m, &mut self.pool, self.nets.as_slice(), make);
        match made {
            Some(net) => match self.nets.push(net) {
                Ok(()) => Ok(place),
                Err(_full) => Err(SampleRefusal::NoMemory),
            },
            None => Err(SampleRefusal::Misfit),
        }
    }

    /// The net at a place.
    fn net(&self, place: usize) -> Option<Net>
        requires { IsDraft self.now.m self.now.pool self.now.nets.items }
        ensures { IfSome result (λ n. InScope (scope_of self.now.m) self.now.pool n) }
    {
        at(&self.m, &self.pool, self.nets.as_slice(), place)
    }

    /// Drives a forward wire by the net at a place.
    pub(crate) fn drive(&mut self, wire: u32, place: usize) -> Result<(), SampleRefusal>
        requires { IsDraft self.old.m self.old.pool self.old.nets.items }
        ensures { IsDraft self.new.m self.new.pool self.new.nets.items }
    {
        match self.net(place) {
            Some(net) => told(drive(&mut self.m, &self.pool, wire, net)),
            None => Err(SampleRefusal::Misfit),
        }
    }

    /// Gives a register the net at a place as its next value.
    pub(crate) fn next(&mut self, reg: u32, place: usize) -> Result<(), SampleRefusal>
        requires { IsDraft self.old.m self.old.pool self.old.nets.items }
        ensures { IsDraft self.new.m self.new.pool self.new.nets.items }
    {
        match self.net(place) {
            Some(net) => told(next(&mut self.m, &self.pool, reg, net)),
            None => Err(SampleRefusal::Misfit),
        }
    }

    /// Writes an array, by the nets at three places.
    pub(crate) fn write(
        &mut self,
        array: u32,
        enable: usize,
        addr: usize,
        value: usize,
    ) -> Result<(), SampleRefusal>
        requires { IsDraft self.old.m self.old.pool self.old.nets.items }
        ensures { IsDraft self.new.m self.new.pool self.new.nets.items }
    {
        match (self.net(enable), self.net(addr), self.net(value)) {
            (Some(enable), Some(addr), Some(value)) => {
                told(write(&mut self.m, &self.pool, array, enable, addr, value))
            }
            _ => Err(SampleRefusal::Misfit),
        }
    }

    /// Drives an output by the net at a place.
    pub(crate) fn output(&mut self, port: u32, place: usize) -> Result<(), SampleRefusal>
        requires { IsDraft self.old.m self.old.pool self.old.nets.items }
        ensures { IsDraft self.new.m self.new.pool self.new.nets.items }
    {
        match self.net(place) {
            Some(net) => told(output(&mut self.m, &self.pool, port, net)),
            None => Err(SampleRefusal::Misfit),
        }
    }

    /// The module and its pool, where each thing has a driver and they are few enough.
    pub(crate) fn done(self) -> Result<Sample, SampleRefusal>
        requires { IsDraft self.m self.pool self.nets.items }
        ensures checked { IfOk result (λ s. IsChecked s.circuit s.pool) }
        ensures few { IfOk result (λ s. thing_count s.circuit s.pool ≤ 65535) }
    {
        checked(self.m, self.pool)
    }
}

/// The refusal of a driver that does not fit.
fn told(fits: bool) -> Result<(), SampleRefusal> {
    if fits {
        Ok(())
    } else {
        Err(SampleRefusal::Misfit)
    }
}
