// The processor time.
use std::time::{CpuClock, Duration};

// So far; none where the system can't tell, so that every call takes none.
pub fn processor_time(clock: HostRuntime) -> Duration {
    clock.process_cpu_time().unwrap_or(Duration::ZERO)
}
