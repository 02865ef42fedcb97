ghost use Rattle.std.specs.Prelude.{◌≡◌, ◌+◌, ◌≤◌, [], ◌∷◌, ◌++◌, IfOk, None, Some};
ghost use Rattle.service_reg.specs.declared.service.Service.TheVariants.{
  DataBus,
  Decoder,
  Exec,
  Fetch,
  Hazard,
  Predict,
  RegFile,
  System,
};
ghost use Rattle.service_ports.specs.Ports.{
  databus_ports,
  decoder_ports,
  exec_ports,
  fetch_ports,
  hazard_ports,
  predict_ports,
  regfile_ports,
  system_ports,
};
ghost use Rattle.service_ports.specs.Registry.{AddsOffer, ports_in, single};

use crate::{
    DataBusPorts, DecoderPorts, ExecOffer, ExecPorts, FetchPorts, HazardPorts, PredictPorts,
    RegFilePorts, SystemPorts,
};
use std::alloc::{AllocError, Global};
use std::marker::Model;

/// The services that entries offer, each by its ports, with room for more offers of Exec. Each other service is offered
/// at most once.
#[derive(Debug, Drop)]
pub struct Registry {
    fetch: Option<(u32, FetchPorts)>,
    predict: Option<(u32, PredictPorts)>,
    decoder: Option<(u32, DecoderPorts)>,
    regfile: Option<(u32, RegFilePorts)>,
    hazard: Option<(u32, HazardPorts)>,
    databus: Option<(u32, DataBusPorts)>,
    system: Option<(u32, SystemPorts)>,
    execs: Vec<ExecOffer>,
    room: u32,
}

impl Model for Registry {
    ghost use Rattle.std.specs.Prelude.{◌+◌, ◌≤◌, length, vec_capacity};
    ghost use Rattle.service_ports.specs.Registry.{RegistryValue};

    ghost Value = { RegistryValue };

    ghost view = { λ r. record { fetch = r.fetch; predict = r.predict; decoder = r.decoder; regfile = r.regfile; hazard = r.hazard; databus = r.databus; system = r.system; execs = r.execs.items; room = r.room } };

    ghost invariant = { λ r. length r.execs.items + r.room ≤ vec_capacity r.execs };
}

impl Registry {
    /// No service, with room for `n` offers of Exec.
    ///
    /// # Errors
    /// `AllocError` where memory was refused.
    pub fn with_room(alloc: Global, n: u32) -> Result<Registry, AllocError>
        ensures { IfOk result (λ r. r ≡ record { fetch = None; predict = None; decoder = None; regfile = None; hazard = None; databus = None; system = None; execs = []; room = n }) }
    {
        let execs = Vec::with_capacity(alloc, n as usize)?;
        Ok(Registry {
            fetch: None,
            predict: None,
            decoder: None,
            regfile: None,
            hazard: None,
            databus: None,
            system: None,
            execs,
            room: n,
        })
    }

    /// Offers Fetch, which was not offered, as entry `by`. It takes no memory.
    #[tactic(auto, using(crate::proofs::Offers::adds_fetch))]
    pub fn offer_fetch(&mut self, by: u32, ports: FetchPorts)
        requires open { self.old.fetch ≡ None }
        ensures is { self.new ≡ record self.old { fetch = Some (by, ports) } }
        ensures single { single self.new Fetch ≡ Some (record { by = by; ports = fetch_ports ports }) }
        ensures adds { AddsOffer Fetch by (fetch_ports ports) self.old self.new }
    {
        self.fetch = Some((by, ports));
    }

    /// The ports of Fetch, none exactly where it was not offered. It takes no memory.
    pub fn fetch(&self) -> Option<FetchPorts>
        ensures { result ≡ ports_in self.now.fetch }
    {
        match self.fetch {
            Some((_by, ports)) => Some(ports),
            None => None,
        }
    }

    /// Offers Predict, which was not offered, as entry `by`. It takes no memory.
    #[tactic(auto, using(crate::proofs::Offers::adds_predict))]
    pub fn offer_predict(&mut self, by: u32, ports: PredictPorts)
        requires open { self.old.predict ≡ None }
        ensures is { self.new ≡ record self.old { predict = Some (by, ports) } }
        ensures single { single self.new Predict ≡ Some (record { by = by; ports = predict_ports ports }) }
        ensures adds { AddsOffer Predict by (predict_ports ports) self.old self.new }
    {
        self.predict = Some((by, ports));
    }

    /// The ports of Predict, none exactly where it was not offered. It takes no memory.
    pub fn predict(&self) -> Option<PredictPorts>
        ensures { result ≡ ports_in self.now.predict }
    {
        match self.predict {
            Some((_by, ports)) => Some(ports),
            None => None,
        }
    }

    /// Offers Decoder, which was not offered, as entry `by`. It takes no memory.
    #[tactic(auto, using(crate::proofs::Offers::adds_decoder))]
    pub fn offer_decoder(&mut self, by: u32, ports: DecoderPorts)
        requires open { self.old.decoder ≡ None }
        ensures is { self.new ≡ record self.old { decoder = Some (by, ports) } }
        ensures single { single self.new Decoder ≡ Some (record { by = by; ports = decoder_ports ports }) }
        ensures adds { AddsOffer Decoder by (decoder_ports ports) self.old self.new }
    {
        self.decoder = Some((by, ports));
    }

    /// The ports of Decoder, none exactly where it was not offered. It takes no memory.
    pub fn decoder(&self) -> Option<DecoderPorts>
        ensures { result ≡ ports_in self.now.decoder }
    {
        match self.decoder {
            Some((_by, ports)) => Some(ports),
            None => None,
        }
    }

    /// Offers RegFile, which was not offered, as entry `by`. It takes no memory.
    #[tactic(auto, using(crate::proofs::Offers::adds_regfile))]
    pub fn offer_regfile(&mut self, by: u32, ports: RegFilePorts)
        requires open { self.old.regfile ≡ None }
        ensures is { self.new ≡ record self.old { regfile = Some (by, ports) } }
        ensures single { single self.new RegFile ≡ Some (record { by = by; ports = regfile_ports ports }) }
        ensures adds { AddsOffer RegFile by (regfile_ports ports) self.old self.new }
    {
        self.regfile = Some((by, ports));
    }

    /// The ports of RegFile, none exactly where it was not offered. It takes no memory.
    pub fn regfile(&self) -> Option<RegFilePorts>
        ensures { result ≡ ports_in self.now.regfile }
    {
        match self.regfile {
            Some((_by, ports)) => Some(ports),
            None => None,
        }
    }

    /// Offers Hazard, which was not offered, as entry `by`. It takes no memory.
    #[tactic(auto, using(crate::proofs::Offers::adds_hazard))]
    pub fn offer_hazard(&mut self, by: u32, ports: HazardPorts)
        requires open { self.old.hazard ≡ None }
        ensures is { self.new ≡ record self.old { hazard = Some (by, ports) } }
        ensures single { single self.new Hazard ≡ Some (record { by = by; ports = hazard_ports ports }) }
        ensures adds { AddsOffer Hazard by (hazard_ports ports) self.old self.new }
    {
        self.hazard = Some((by, ports));
    }

    /// The ports of Hazard, none exactly where it was not offered. It takes no memory.
    pub fn hazard(&self) -> Option<HazardPorts>
        ensures { result ≡ ports_in self.now.hazard }
    {
        match self.hazard {
            Some((_by, ports)) => Some(ports),
            None => None,
        }
    }

    /// Offers DataBus, which was not offered, as entry `by`. It takes no memory.
    #[tactic(auto, using(crate::proofs::Offers::adds_databus))]
    pub fn offer_databus(&mut self, by: u32, ports: DataBusPorts)
        requires open { self.old.databus ≡ None }
        ensures is { self.new ≡ record self.old { databus = Some (by, ports) } }
        ensures single { single self.new DataBus ≡ Some (record { by = by; ports = databus_ports ports }) }
        ensures adds { AddsOffer DataBus by (databus_ports ports) self.old self.new }
    {
        self.databus = Some((by, ports));
    }

    /// The ports of DataBus, none exactly where it was not offered. It takes no memory.
    pub fn databus(&self) -> Option<DataBusPorts>
        ensures { result ≡ ports_in self.now.databus }
    {
        match self.databus {
            Some((_by, ports)) => Some(ports),
            None => None,
        }
    }

    /// Offers System, which was not offered, as entry `by`. It takes no memory.
    #[tactic(auto, using(crate::proofs::Offers::adds_system))]
    pub fn offer_system(&mut self, by: u32, ports: SystemPorts)
        requires open { self.old.system ≡ None }
        ensures is { self.new ≡ record self.old { system = Some (by, ports) } }
        ensures single { single self.new System ≡ Some (record { by = by; ports = system_ports ports }) }
        ensures adds { AddsOffer System by (system_ports ports) self.old self.new }
    {
        self.system = Some((by, ports));
    }

    /// The ports of System, none exactly where it was not offered. It takes no memory.
    pub fn system(&self) -> Option<SystemPorts>
        ensures { result ≡ ports_in self.now.system }
    {
        match self.system {
            Some((_by, ports)) => Some(ports),
            None => None,
        }
    }

    /// Offers Exec as entry `by`. It takes no memory.
    pub fn offer_exec(&mut self, by: u32, ports: ExecPorts)
        requires room { 1 ≤ self.old.room }
        ensures execs { self.new.execs ≡ self.old.execs ++ record { by = by; ports = ports } ∷ [] }
        ensures fetch { self.new.fetch ≡ self.old.fetch }
        ensures predict { self.new.predict ≡ self.old.predict }
        ensures decoder { self.new.decoder ≡ self.old.decoder }
        ensures regfile { self.new.regfile ≡ self.old.regfile }
        ensures hazard { self.new.hazard ≡ self.old.hazard }
        ensures databus { self.new.databus ≡ self.old.databus }
        ensures system { self.new.system ≡ self.old.system }
        ensures room { self.new.room + 1 ≡ self.old.room }
        ensures adds { AddsOffer Exec by (exec_ports ports) self.old self.new }
    {
        self.room -= 1;
        let _ = self.execs.push(ExecOffer { by, ports });
    }

    /// The offers of Exec in the order in which they came, lent. It takes no memory.
    pub fn execs(&self) -> &Vec<ExecOffer>
        ensures { result.now.items ≡ self.now.execs }
    {
        &self.execs
    }
}
