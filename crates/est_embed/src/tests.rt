//! What a load tells that is refused.

use crate::exports::est_load_module;
use est_host::loading::HostFault;

#[test]
fn a_refused_load_tells_its_fault(rt: HostRuntime) {
    let mut machine: *mut u8 = std::ptr::null_mut();
    let mut fault = HostFault {
        code: 0,
        line: 0,
        column: 0,
    };
    let text = b"module M:\nloop end";
    let status = est_load_module(rt.alloc(), b"M", text, &mut machine, &mut fault);
    assert_eq!(&rt;
        (status, fault.code, fault.line, fault.column),
        (71, 71, 2, 6)
    );
}
