//! The examples in the documentation of the public calls, as they stand there.

use mq_trace::*;
use std::test::Fail;

#[derive(Drop)]
struct Count(u32);

impl Sink for Count {
    ghost use Rattle.std.specs.Prelude.{⊤};

    ghost agrees = { λ _ _. ⊤ };

    ghost refuses = { λ _ _ _. ⊤ };

    fn event(&mut self, _: Place3, _: Event<'_>) -> Result<(), Refusal> {
        self.0 = self.0.checked_add(1).ok_or(Refusal::Memory(0))?;
        Ok(())
    }
}

#[test]
fn reading_a_log(rt: HostRuntime) -> Result<(), Fail> {
    let mut count = Count(0);
    let mut tracer = Tracer::new(rt.alloc(), 16_777_216);
    tracer.feed(b"MQTR\x01\x00\x01\x00\x01\x00", &mut count)?;
    tracer.feed(b"\x00\x00\x00\x04\x00\x00\x00\x00", &mut count)?;
    tracer.finish()?;
    assert_eq!(rt; count.0, 2);
    Ok(())
}

#[test]
fn refusing_a_log(rt: HostRuntime) -> Result<(), Fail> {
    let mut count = Count(0);
    let mut tracer = Tracer::new(rt.alloc(), 16_777_216);
    let nested = b"MQTR\x01\x00\x01\x00\x01\x00\x00\x00\x00\x01";
    assert_eq!(rt; tracer.feed(nested, &mut count), Err(Refusal::Nested(13)));
    assert_eq!(rt; count.0, 1);
    Ok(())
}

#[test]
#[tactic(auto, using(mq_trace::proofs::Exports::longest_most))]
fn writing_a_log(rt: HostRuntime) -> Result<(), Fail> {
    let mut log = TraceWriter::new(Vec::new(rt.alloc()));
    log.header(&Header {
        version: 1,
        server: false,
        releases: true,
    })?;
    log.open()?;
    log.sent(b"\xc0\x00")?;
    let bytes = b"MQTR\x01\x00\x01\x00\x01\x00\x00\x00\x00\x02\x00\x00\x00\x02\xc0\x00";
    assert_eq!(rt; log.into_inner().as_slice(), bytes.as_slice());
    Ok(())
}
