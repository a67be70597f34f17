// How an answer gets into an output: as a reply, which one function puts.
ghost use Rattle.std.specs.Prelude.{◌≡◌};
ghost use Rattle.hivesaddle.specs.Output.{Answered, overlay};
ghost use Rattle.hivesaddle.specs.Private.{said_by, saying};

// A function's number and its values.
#[derive(Clone, Copy)]
pub(crate) struct Reply<const N: usize> {
    pub number: u32,
    pub values: [u64; N],
}

impl<const N: usize> Reply<N> {
    pub(crate) fn new(number: u32, values: [u64; N]) -> Reply<N>
        ensures { said_by result ≡ saying number values.entry }
    {
        Reply { number, values }
    }
}

// As many of some values as fit.
fn put(out: &mut [u64], values: &[u64])
    ensures { out.new ≡ overlay out.old values.now }
{
    let n = out.len().min(values.len());
    out[..n].copy_from_slice(&values[..n]);
}

// Puts a reply's values, and answers its number.
pub(crate) fn put_reply<const N: usize>(reply: Reply<N>, out: &mut [u64]) -> u32
    ensures { Answered (said_by reply.entry) result out.old out.new }
{
    put(out, &reply.values);
    reply.number
}
