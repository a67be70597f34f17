// Lists one prefetch file from standard input. The two buffers are the 64 KiB that a controller gives.
#![tactic(auto)]

fn main(rt: HostRuntime) {
    let mut file = [0u8; 49_152];
    let mut predecessors = [0u32; 4_096];
    // room for every listing
    let mut text = [0u8; 256];
    let n = console::read_input(&mut rt.stdin(), &mut file);
    let len = listing_text::list(&file[..n], &mut predecessors, &mut text);
    console::write_output(&mut rt.stdout(), &text[..len]);
}
