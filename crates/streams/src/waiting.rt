// A call that the system put off is made again after a short sleep: the file may not wait by itself (EAGAIN), or a signal may have come first (EINTR).
use std::io::ErrorKind;
use std::time::{Clock, Duration};
use std::{io, thread};

// Waits for a hundredth of a second.
fn pause(clock: &impl Clock) {
    thread::sleep(clock, Duration::from_millis(10));
}

// Waits a little if the call that failed so was only put off; if it was not, hands its error on.
pub(crate) fn wait_if_put_off(clock: &impl Clock, error: io::Error) -> io::Result<()> {
    let kind = error.kind();
    if kind != ErrorKind::WouldBlock && kind != ErrorKind::Interrupted {
        return Err(error);
    }
    pause(clock);
    Ok(())
}

// The reason that stands for a call that was put off each time that it was made.
pub(crate) fn put_off_too_often() -> io::Error {
    io::Error::from(ErrorKind::TimedOut)
}
