// What is said at the end of a run, on standard error.
use replay_calls::state::Session;
use std::io::Error;

fn report_load(rt: HostRuntime, session: &Session<'_>) {
    if let Some(line) = session.state.load {
        let _ = eprintln!(rt;
            "cachereplay: the input ended inside the load that began in line {line}: no end line"
        );
    }
}

fn report_counts(rt: HostRuntime, session: &Session<'_>) {
    if session.state.refused == 0 && session.state.bad == 0 {
        return;
    }
    let lines = session.state.line;
    let calls = session.state.calls;
    let refused = session.state.refused;
    let bad = session.state.bad;
    let _ = eprintln!(rt;
        "cachereplay: lines {lines}, calls {calls}, refused {refused}, bad {bad}"
    );
}

// The input may have ended by an error, of which the system's number is given.
pub fn report(rt: HostRuntime, input: Option<i32>, session: &mut Session<'_>) {
    if let Some(number) = input {
        let error = Error::from_raw_os_error(number);
        let _ = eprintln!(rt; "cachereplay: the input can't be read: {error}");
    }
    session.out.flush();
    if session.out.is_broken() {
        let _ = eprintln!(rt; "cachereplay: the output can't be written");
    }
    report_load(rt, session);
    report_counts(rt, session);
}
