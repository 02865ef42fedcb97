/// What the two buses drive in one cycle.
#[derive(Clone, Copy, Debug, PartialEq, Eq)]
pub struct BusIn {
    pub ib_cmd_ready: bool,
    pub ib_rsp_valid: bool,
    pub ib_rsp_error: bool,
    pub ib_rsp_data: u32,
    pub db_cmd_ready: bool,
    pub db_rsp_valid: bool,
    pub db_rsp_error: bool,
    pub db_rsp_data: u32,
}

/// What a core drives on the two buses in one cycle. Of `db_cmd_mask` the low four bits count.
#[derive(Clone, Copy, Debug, PartialEq, Eq)]
pub struct BusOut {
    pub ib_cmd_valid: bool,
    pub ib_cmd_addr: u32,
    pub db_cmd_valid: bool,
    pub db_cmd_write: bool,
    pub db_cmd_addr: u32,
    pub db_cmd_data: u32,
    pub db_cmd_mask: u32,
}
