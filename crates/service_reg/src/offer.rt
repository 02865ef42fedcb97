ghost use Rattle.std.specs.Prelude.{◌≡◌, ◌+◌, ◌<◌, ◌≤◌, ◌^◌, length};
ghost use Rattle.std.specs.Bool.{Decides};
ghost use Rattle.std.specs.List.{Contains};
ghost use Rattle.service_reg.specs.Services.{IsOffered, Offers, number, use_at};
ghost use Rattle.service_reg.specs.Search.{IsDoubled, IsMissing, IsOfferer, IsPair, IsUnmet, IsUnmetPlace};

use crate::{Service, ServiceUse};

/// A need of an entry that nothing offers.
#[derive(Clone, Copy)]
pub struct Unmet {
    pub service: Service,
    pub by: u32,
}

/// Two entries, the lower first.
#[derive(Clone, Copy)]
pub struct Pair {
    pub a: u32,
    pub b: u32,
}

/// A service that two entries offer.
#[derive(Clone, Copy)]
pub struct Doubled {
    pub service: Service,
    pub a: u32,
    pub b: u32,
}

/// The place of a service in the order of services.
fn number(service: Service) -> u32
    ensures { result ≡ number service }
{
    match service {
        Service::Fetch => 0,
        Service::Predict => 1,
        Service::Decoder => 2,
        Service::RegFile => 3,
        Service::Hazard => 4,
        Service::Exec => 5,
        Service::DataBus => 6,
        Service::System => 7,
    }
}

/// The service at a place in the order of services.
fn service_of(place: u32) -> Service
    requires { place < 8 }
    ensures { number result ≡ place }
{
    match place {
        0 => Service::Fetch,
        1 => Service::Predict,
        2 => Service::Decoder,
        3 => Service::RegFile,
        4 => Service::Hazard,
        5 => Service::Exec,
        6 => Service::DataBus,
        _ => Service::System,
    }
}

/// Whether the service is the one that many entries may offer.
fn is_exec(service: Service) -> bool
    ensures { Decides result (service ≡ Service.Exec) }
{
    matches!(service, Service::Exec)
}

/// Whether the service is in the list.
pub fn has(services: &Vec<Service>, service: Service) -> bool
    ensures { Decides result (Contains services.now.items service) }
{
    for k in 0..services.len() {
        if number(services[k]) == number(service) {
            return true;
        }
    }
    false
}

/// Whether an entry offers the service.
pub fn offers(specs: &[ServiceUse], entry: usize, service: Service) -> bool
    requires { entry < length specs.now }
    ensures { Decides result (Offers specs.now entry service) }
{
    has(specs[entry].offers.items(), service)
}

/// The least entry from a number on that offers the service.
fn offerer(specs: &[ServiceUse], service: Service, from: usize) -> Option<usize>
    requires { from ≤ length specs.now }
    ensures { IsOfferer specs.now service from result }
{
    for entry in from..specs.len() {
        if offers(specs, entry, service) {
            return Some(entry);
        }
    }
    None
}

/// Whether some entry offers the service.
fn is_offered(specs: &[ServiceUse], service: Service) -> bool
    ensures { Decides result (IsOffered specs.now service) }
{
    offerer(specs, service, 0).is_some()
}

/// The first service that nothing offers, of those that every core needs.
pub fn missing_in_core(specs: &[ServiceUse]) -> Option<Service>
    ensures { IsMissing specs.now result }
{
    if !is_offered(specs, Service::Fetch) {
        return Some(Service::Fetch);
    }
    if !is_offered(specs, Service::Decoder) {
        return Some(Service::Decoder);
    }
    if !is_offered(specs, Service::RegFile) {
        return Some(Service::RegFile);
    }
    if !is_offered(specs, Service::Hazard) {
        return Some(Service::Hazard);
    }
    None
}

/// The place of the first of these services that nothing offers.
fn unmet_place(specs: &[ServiceUse], services: &Vec<Service>) -> Option<usize>
    ensures { IsUnmetPlace specs.now services.now.items result }
{
    for k in 0..services.len() {
        if !is_offered(specs, services[k]) {
            return Some(k);
        }
    }
    None
}

/// The first need that nothing offers, by entry and then by place.
pub fn first_unmet(specs: &[ServiceUse]) -> Option<Unmet>
    requires { length specs.now < 2 ^ 32 }
    ensures { IsUnmet specs.now result }
{
    for entry in 0..specs.len() {
        let needs = specs[entry].needs.items();
        if let Some(place) = unmet_place(specs, needs) {
            return Some(Unmet {
                service: needs[place],
                by: entry as u32,
            });
        }
    }
    None
}

/// The first two entries that offer the service.
fn first_pair(specs: &[ServiceUse], service: Service) -> Option<Pair>
    requires { length specs.now < 2 ^ 32 }
    ensures { IsPair specs.now service result }
{
    let Some(a) = offerer(specs, service, 0) else {
        return None;
    };
    let Some(b) = offerer(specs, service, a + 1) else {
        return None;
    };
    Some(Pair {
        a: a as u32,
        b: b as u32,
    })
}

/// The first service but `Exec` that two entries offer, with the first two.
pub fn first_double(specs: &[ServiceUse]) -> Option<Doubled>
    requires { length specs.now < 2 ^ 32 }
    ensures { IsDoubled specs.now result }
{
    for n in 0..8u32 {
        let service = service_of(n);
        if is_exec(service) {
            continue;
        }
        if let Some(pair) = first_pair(specs, service) {
            return Some(Doubled {
                service,
                a: pair.a,
                b: pair.b,
            });
        }
    }
    None
}
