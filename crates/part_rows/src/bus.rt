use part_bench::Bench;

/// A bus, of which these are the first among the inputs and the outputs of the core, and the address among the latter: for how many
/// cycles a command waits and then a response, how the word is made of the address, and the address of an error; then for how many
/// cycles a command stands, whether a response is owed and for how long, and the address of the last command.
#[derive(Drop)]
pub struct Bus {
    pub places: (usize, usize, usize),
    pub wait: u64,
    pub key: u64,
    pub fault: u64,
    pub stood: u64,
    pub owes: bool,
    pub owed: u64,
    pub address: u64,
}

impl Bus {
    /// From now on the bus answers so.
    pub fn set(&mut self, wait: u64, key: u64, fault: u64) {
        self.wait = wait;
        self.key = key;
        self.fault = fault;
    }

    /// Resets a part. No command stands, and no response is owed.
    pub fn reset(&mut self, bench: &mut Bench) {
        bench.set_input(1, 1);
        bench.step();
        bench.set_input(1, 0);
        self.stood = 0;
        self.owes = false;
    }

    /// A cycle of a part: whether the bus took a command.
    pub fn cycle(&mut self, bench: &mut Bench) -> bool {
        let (first, valid, address) = self.places;
        let ready = self.stood >= self.wait;
        let answers = self.owes && self.owed >= self.wait;
        bench.set_input(first, u64::from(ready));
        bench.set_input(first.saturating_add(1), u64::from(answers));
        bench.set_input(
            first.saturating_add(2),
            u64::from(self.address == self.fault),
        );
        bench.set_input(first.saturating_add(3), self.address ^ self.key);
        bench.step();
        let given = bench.output(valid) == 1;
        let takes = given && ready;
        self.stood = if given && !takes {
            self.stood.saturating_add(1)
        } else {
            0
        };
        self.owed = if takes {
            0
        } else {
            self.owed.saturating_add(1)
        };
        self.owes = takes || (self.owes && !answers);
        if takes {
            self.address = bench.output(address);
        }
        takes
    }
}
