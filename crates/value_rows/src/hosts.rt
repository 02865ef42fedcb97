use core_host::{Host, Port, RealHost, push_all};

/// Whether the real host finds no missing file, and takes a note.
pub fn real_host_is_right(rt: HostRuntime) -> bool {
    let alloc = rt.alloc();
    let mut host = RealHost::new(alloc, rt, Vec::new(alloc), Vec::new(alloc));
    host.find("no file of this name").is_err() && push_all(&mut host, Port::Notes, b"note").is_ok()
}
