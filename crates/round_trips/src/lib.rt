// A job written and read again, and a record read and written again.
#![tactic(auto)]

ghost use Rattle.std.specs.Prelude.{◌≡◌, length};
ghost use Rattle.codec.specs.Codec.{record_size, said_of};

use record::Job;

// The job's record, read again: it says the same job, but for frames trimmed where the version has no place for them.
pub fn reread(version: u16, job: Job) -> Job
    ensures { result ≡ said_of version job }
{
    let mut bytes = [0u8; codec::LONGEST];
    records::write(version, job, &mut bytes);
    records::read(version, &bytes)
}

fn again(version: u16, bytes: &[u8], out: &mut [u8])
    requires { (length bytes.now ≡ record_size version) × (length out.old ≡ record_size version) }
    ensures { out.new ≡ bytes.now }
{
    records::write(version, records::read(version, bytes), out);
}

// The record of the job that the bytes say: it is the same bytes, in version 1 and in version 2.
pub fn rewrite_first(bytes: &[u8; 100], out: &mut [u8; 100])
    ensures { out.new ≡ bytes.now }
{
    again(1, bytes, out);
}

pub fn rewrite_second(bytes: &[u8; 104], out: &mut [u8; 104])
    ensures { out.new ≡ bytes.now }
{
    again(2, bytes, out);
}
