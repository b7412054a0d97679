use crate::owned::spent;
use session::Session;
use std::process::Abort;

fn is_empty(rt: &impl Abort, session: &Session) {
    assert_eq!(rt; session.now(), 0);
    assert_eq!(rt; session.journal().len(), 0);
}

#[test]
fn a_session_begins_with_no_entry_at_the_clock_0(rt: HostRuntime) {
    let session = Session::new(rt.alloc());
    is_empty(&rt, &session);
    spent(session, ());
}
