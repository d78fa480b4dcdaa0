// What no clause says: the texts of the faults that no case of the program meets.
use command_line::Fault;
use std::test::Fail;

#[test]
fn faults_of_a_run_have_their_texts(rt: HostRuntime) -> Result<(), Fail> {
    for (fault, text) in [
        (Fault::Spawn, "run: spawn\n"),
        (Fault::GateClosed, "run: gate closed\n"),
        (Fault::Stranger, "run: stranger\n"),
    ] {
        let mut err: Vec<u8> = Vec::new(rt.alloc());
        assert_eq!(rt; fault.report(&mut err), 3);
        assert!(rt; err.as_slice() == text.as_bytes(), "{text}");
    }
    Ok(())
}
