use core_host::List;
use thiserror::Error;

/// A service of a plug-in to others and to the pipeline. `Exec` may be offered by many, each other service by one.
#[derive(Clone, Copy, Debug, PartialEq, Eq)]
pub enum Service {
    Fetch,
    Predict,
    Decoder,
    RegFile,
    Hazard,
    Exec,
    DataBus,
    System,
}

/// The services that an entry offers, those that must be there for it, and those that it uses where they are there.
#[derive(Debug, Drop)]
pub struct ServiceUse {
    pub offers: List<Service>,
    pub needs: List<Service>,
    pub uses: List<Service>,
}

/// Why the services of a configuration are refused.
#[derive(Clone, Copy, Debug, PartialEq, Eq, Error)]
pub enum ServiceRefusal {
    /// Nothing offers the service, which every core needs where `by` is none, else this entry.
    #[error("a service is missing")]
    Missing { service: Service, by: Option<u32> },
    /// The entries `a` and `b` offer one service.
    #[error("a service is offered twice")]
    Double { service: Service, a: u32, b: u32 },
    /// The entry stands on itself, by what it needs and uses.
    #[error("an entry needs itself")]
    CycleOfNeeds { plug: u32 },
    #[error("out of memory")]
    NoMemory,
}
