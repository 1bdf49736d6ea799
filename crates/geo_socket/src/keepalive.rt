//! Connections whose other end has gone without a word.
use libc::net;
use std::net::TcpStream;
use std::os::fd::AsRawFd;

/// Has the system ask from time to time whether the other end of a connection is still there, and end the connection where it isn't
/// (tcp(7)). Where the system refuses that, what is written to the connection finds it out.
pub fn keep_alive(stream: &TcpStream) {
    let mut on = [0u8; 16];
    on[0] = 1;
    let number = stream.as_raw_fd();
    // one of the socket's own options, whose value is a number of four bytes
    let _done = unsafe { net::setsockopt(number, net::SOL_SOCKET, net::SO_KEEPALIVE, &on, 4) };
}
