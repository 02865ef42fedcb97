ghost use Rattle.std.specs.Prelude.{◌≡◌, ◌↔◌, ℕ, ◌<◌, ◌≤◌, IsTrue, length, get_or};
ghost use Rattle.plug_api.specs.Spec.{IsSpec, IsOfTable, IsOfBus, is_among, has_place, is_commit, no_claim};
ghost use Rattle.service_reg.specs.Services.{number};
ghost use Rattle.service_reg.specs.declared.service.Service.{Service};

use isa_table::{Claim, Group, row_at};
use plug_api::{Place, PlugSpec};
use service_reg::Service;

/// Whether the claim is that of a row of the table.
fn is_of_table(claim: Claim) -> bool
    ensures { IsTrue result ↔ IsOfTable claim }
{
    if claim.row >= 57 {
        return false;
    }
    let row = row_at(claim.row);
    claim.mask == row.mask && claim.value == row.value
}

fn are_of_table(rows: &Vec<Claim>) -> bool
    ensures { IsTrue result ↔ ((k : ℕ) → k < length rows.now.items → IsOfTable (get_or rows.now.items k no_claim)) }
{
    for k in 0..rows.len() {
        if !is_of_table(rows[k]) {
            return false;
        }
    }
    true
}

/// Whether one of the first claims is of this row.
fn is_before(rows: &Vec<Claim>, count: usize, row: u32) -> bool
    requires { count ≤ length rows.now.items }
    ensures { IsTrue result ↔ ((j : ℕ) × ((j < count) × ((get_or rows.now.items j no_claim).row ≡ row))) }
{
    for j in 0..count {
        if rows[j].row == row {
            return true;
        }
    }
    false
}

fn rows_differ(rows: &Vec<Claim>) -> bool
    ensures { IsTrue result ↔ ((j k : ℕ) → j < k → k < length rows.now.items
        → (get_or rows.now.items j no_claim).row ≡ (get_or rows.now.items k no_claim).row → ⊥) }
{
    for k in 0..rows.len() {
        if is_before(rows, k, rows[k].row) {
            return false;
        }
    }
    true
}

/// Whether one of the first services is this.
fn is_offered(services: &Vec<Service>, count: usize, service: Service) -> bool
    requires { count ≤ length services.now.items }
    ensures { IsTrue result ↔ ((j : ℕ) × ((j < count) × (get_or services.now.items j Service.Fetch ≡ service))) }
{
    for j in 0..count {
        if services[j] == service {
            return true;
        }
    }
    false
}

fn offers_differ(services: &Vec<Service>) -> bool
    ensures { IsTrue result ↔ ((j k : ℕ) → j < k → k < length services.now.items
        → get_or services.now.items j Service.Fetch ≡ get_or services.now.items k Service.Fetch → ⊥) }
{
    for k in 0..services.len() {
        if is_offered(services, k, services[k]) {
            return false;
        }
    }
    true
}

/// Whether a claim is of a row of loads or stores.
fn use_bus(rows: &Vec<Claim>) -> bool
    requires { (k : ℕ) → k < length rows.now.items → IsOfTable (get_or rows.now.items k no_claim) }
    ensures { IsTrue result ↔ ((k : ℕ) × ((k < length rows.now.items) × IsOfBus (get_or rows.now.items k no_claim).row)) }
{
    for k in 0..rows.len() {
        if is_of_bus(rows[k]) {
            return true;
        }
    }
    false
}

fn is_of_bus(claim: Claim) -> bool
    requires { IsOfTable claim }
    ensures { IsTrue result ↔ IsOfBus claim.row }
{
    let group = row_at(claim.row).group;
    group == Group::Load || group == Group::Store
}

/// Whether a claim is of a row of the system registers.
fn use_registers(rows: &Vec<Claim>) -> bool
    ensures { IsTrue result ↔ ((k : ℕ) × ((k < length rows.now.items) × (49 ≤ (get_or rows.now.items k no_claim).row))) }
{
    for k in 0..rows.len() {
        if rows[k].row >= 49 {
            return true;
        }
    }
    false
}

/// The place of a service in the order of services.
fn number(service: Service) -> u32
    ensures { result ≡ number service }
{
    match service {
        Service::Fetch => 0,
        Service::Predict => 1,
        Service::Decoder => 2,
        Service::RegFile => 3,
        Service::Hazard => 4,
        Service::Exec => 5,
        Service::DataBus => 6,
        Service::System => 7,
    }
}

fn is_among(services: &[Service], service: Service) -> bool
    ensures { result ≡ is_among services.now service }
{
    match services {
        [] => false,
        [first, rest @ ..] => number(*first) == number(service) || is_among(rest, service),
    }
}

fn offers(spec: &PlugSpec, service: Service) -> bool
    ensures { result ≡ is_among spec.now.offers service }
{
    is_among(spec.offers.items().as_slice(), service)
}

fn has_place(place: Place) -> bool
    ensures { result ≡ has_place place }
{
    match place {
        Place::Apart => false,
        Place::Execute => true,
        Place::Commit => true,
    }
}

fn is_commit(place: Place) -> bool
    ensures { result ≡ is_commit place }
{
    match place {
        Place::Apart => false,
        Place::Execute => false,
        Place::Commit => true,
    }
}

/// Whether a plug-in may say this of itself.
pub fn is_spec(spec: &PlugSpec) -> bool
    ensures { IsTrue result ↔ IsSpec spec.now }
{
    let rows = spec.rows.items();
    if spec.cost.fixed > 65535
        || spec.cost.per_row > 255
        || rows.len() > 64
        || spec.keys.items().len() > 32
    {
        return false;
    }
    if !are_of_table(rows) || !rows_differ(rows) || !offers_differ(spec.offers.items()) {
        return false;
    }
    if offers(spec, Service::Exec) != has_place(spec.place) {
        return false;
    }
    if rows.len() > 0 && !offers(spec, Service::Exec) {
        return false;
    }
    if use_bus(rows) && !offers(spec, Service::DataBus) {
        return false;
    }
    if use_registers(rows) && !offers(spec, Service::System) {
        return false;
    }
    if offers(spec, Service::DataBus) || offers(spec, Service::System) {
        return is_commit(spec.place);
    }
    true
}
