ghost use Rattle.std.specs.Prelude.{◌≡◌, ℕ, ◌<◌, length, get_or};
ghost use Rattle.plug_kinds.specs.Kinds.{row_of};

use crate::Kind;
use plug_api::Place;
use service_reg::Service;

/// What is said of a kind, its parameters and its delay aside. Claims are rows of the instruction table, by number.
#[derive(Clone, Copy)]
pub struct Row {
    pub name: &'static str,
    pub offers: &'static [Service],
    pub needs: &'static [Service],
    pub uses: &'static [Service],
    pub rows: &'static [u32],
    pub fixed: u32,
    pub per_row: u32,
    pub place: Place,
}

const FETCH: Row = Row {
    name: "fetch",
    offers: &[Service::Fetch],
    needs: &[],
    uses: &[Service::Predict],
    rows: &[],
    fixed: 1024,
    per_row: 0,
    place: Place::Apart,
};

const ICACHE: Row = Row {
    name: "icache",
    offers: &[Service::Fetch],
    needs: &[],
    uses: &[Service::Predict],
    rows: &[],
    fixed: 2048,
    per_row: 0,
    place: Place::Apart,
};

const PREDICT: Row = Row {
    name: "predict",
    offers: &[Service::Predict],
    needs: &[],
    uses: &[],
    rows: &[],
    fixed: 256,
    per_row: 0,
    place: Place::Apart,
};

const FENCEI: Row = Row {
    name: "fencei",
    offers: &[Service::Exec],
    needs: &[Service::Fetch],
    uses: &[],
    rows: &[40],
    fixed: 64,
    per_row: 0,
    place: Place::Commit,
};

const DECODER: Row = Row {
    name: "decoder",
    offers: &[Service::Decoder],
    needs: &[],
    uses: &[],
    rows: &[],
    fixed: 512,
    per_row: 64,
    place: Place::Apart,
};

const REGFILE: Row = Row {
    name: "regfile",
    offers: &[Service::RegFile],
    needs: &[],
    uses: &[],
    rows: &[],
    fixed: 128,
    per_row: 0,
    place: Place::Apart,
};

const HAZARD: Row = Row {
    name: "hazard",
    offers: &[Service::Hazard],
    needs: &[Service::RegFile],
    uses: &[],
    rows: &[],
    fixed: 1024,
    per_row: 0,
    place: Place::Apart,
};

const ALU: Row = Row {
    name: "alu",
    offers: &[Service::Exec],
    needs: &[],
    uses: &[],
    rows: &[0, 1, 18, 19, 20, 21, 22, 23, 27, 28, 30, 31, 32, 35, 36],
    fixed: 512,
    per_row: 0,
    place: Place::Execute,
};

const SHIFT_LIGHT: Row = Row {
    name: "shift_light",
    offers: &[Service::Exec],
    needs: &[],
    uses: &[],
    rows: &[24, 25, 26, 29, 33, 34],
    fixed: 512,
    per_row: 0,
    place: Place::Execute,
};

const SHIFT_BARREL: Row = Row {
    name: "shift_barrel",
    offers: &[Service::Exec],
    needs: &[],
    uses: &[],
    rows: &[24, 25, 26, 29, 33, 34],
    fixed: 1024,
    per_row: 0,
    place: Place::Execute,
};

const MULDIV: Row = Row {
    name: "muldiv",
    offers: &[Service::Exec],
    needs: &[],
    uses: &[],
    rows: &[41, 42, 43, 44, 45, 46, 47, 48],
    fixed: 4096,
    per_row: 0,
    place: Place::Execute,
};

const BRANCH: Row = Row {
    name: "branch",
    offers: &[Service::Exec],
    needs: &[],
    uses: &[],
    rows: &[2, 3, 4, 5, 6, 7, 8, 9],
    fixed: 512,
    per_row: 0,
    place: Place::Execute,
};

const DBUS: Row = Row {
    name: "dbus",
    offers: &[Service::Exec, Service::DataBus],
    needs: &[],
    uses: &[],
    rows: &[10, 11, 12, 13, 14, 15, 16, 17, 37],
    fixed: 1024,
    per_row: 0,
    place: Place::Commit,
};

const CSR: Row = Row {
    name: "csr",
    offers: &[Service::Exec, Service::System],
    needs: &[],
    uses: &[],
    rows: &[49, 50, 51, 52, 53, 54, 55, 56],
    fixed: 4096,
    per_row: 0,
    place: Place::Commit,
};

/// The row of a kind.
pub fn row_of(kind: Kind) -> Row
    ensures name { result.name.now ≡ (row_of kind).name }
    ensures offers { result.offers.now ≡ (row_of kind).offers }
    ensures needs { result.needs.now ≡ (row_of kind).needs }
    ensures uses { result.uses.now ≡ (row_of kind).uses }
    ensures rows { result.rows.now ≡ (row_of kind).rows }
    ensures fixed { result.fixed ≡ (row_of kind).fixed }
    ensures per_row { result.per_row ≡ (row_of kind).per_row }
    ensures place { result.place ≡ (row_of kind).place }
{
    match kind {
        Kind::Fetch => FETCH,
        Kind::Icache => ICACHE,
        Kind::Predict => PREDICT,
        Kind::Fencei => FENCEI,
        Kind::Decoder => DECODER,
        Kind::Regfile => REGFILE,
        Kind::Hazard => HAZARD,
        Kind::Alu => ALU,
        Kind::ShiftLight => SHIFT_LIGHT,
        Kind::ShiftBarrel => SHIFT_BARREL,
        Kind::Muldiv => MULDIV,
        Kind::Branch => BRANCH,
        Kind::Dbus => DBUS,
        Kind::Csr => CSR,
    }
}
