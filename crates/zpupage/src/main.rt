// Writes the microcode page: the file that a light stand loads.
#![tactic(auto)]

use std::io::Write;

fn main(rt: HostRuntime) {
    let mut page = [0u8; microcode::LENGTH];
    microcode::lay(&mut page).unwrap();
    let _ = rt.stdout().write_all(&page);
}
