ghost use Rattle.std.specs.Prelude.{◌≡◌};
ghost use Rattle.mw_isa.specs.Start.{start_regs};

/// The registers that a program sees, and the reservation (Books I and III).
#[derive(Clone, Copy)]
pub struct Regs {
    /// General purpose registers 0 to 31.
    pub gpr: [u64; 32],
    /// The condition register.
    pub cr: u32,
    /// The fixed-point exception register.
    pub xer: u64,
    /// The link register.
    pub lr: u64,
    /// The count register.
    pub ctr: u64,
    /// The target address register.
    pub tar: u64,
    /// The current instruction's address.
    pub cia: u64,
    /// The machine state register.
    pub msr: u64,
    /// Machine status save and restore register 0.
    pub srr0: u64,
    /// Machine status save and restore register 1.
    pub srr1: u64,
    /// Hypervisor machine status save and restore register 0.
    pub hsrr0: u64,
    /// Hypervisor machine status save and restore register 1.
    pub hsrr1: u64,
    /// The data address register.
    pub dar: u64,
    /// The data storage interrupt status register.
    pub dsisr: u32,
    /// The process ID register.
    pub pidr: u32,
    /// Software-use special purpose registers 0 to 3.
    pub sprg: [u64; 4],
    /// Hypervisor software-use special purpose registers 0 and 1.
    pub hsprg: [u64; 2],
    /// The process table register.
    pub prtbl: u64,
    /// The number of the real 64-byte block that is reserved, if one is.
    pub reserve: Option<u32>,
}

impl Regs {
    /// The registers at the start: every one 0 but MSR, which has SF, HV, ME and LE, and no reservation
    /// (Book III, machine state register; the start is this board's own).
    pub fn new() -> Regs
        ensures { result ≡ start_regs }
    {
        Regs {
            gpr: [0; 32],
            cr: 0,
            xer: 0,
            lr: 0,
            ctr: 0,
            tar: 0,
            cia: 0,
            msr: 0x9000_0000_0000_1001,
            srr0: 0,
            srr1: 0,
            hsrr0: 0,
            hsrr1: 0,
            dar: 0,
            dsisr: 0,
            pidr: 0,
            sprg: [0; 4],
            hsprg: [0; 2],
            prtbl: 0,
            reserve: None,
        }
    }
}
