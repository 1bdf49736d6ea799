//! What the operator of a site says on standard input.
use mio::unix::SourceFd;
use mio::{Interest, Registry, Token};
use std::alloc::Global;
use std::io::Read;
use std::os::fd::RawFd;

/// The longest line that is looked at. Of a longer one the beginning is, which is no order.
const LONGEST: usize = 256;

/// How many bytes are read at once.
const PIECE: usize = 256;

/// By which it is told that the operator has said something.
pub(crate) const OPERATOR: Token = Token(1);

/// A line of the operator's.
#[derive(Clone, Copy, Debug, PartialEq, Eq)]
pub(crate) enum Order {
    /// `stop`: the site is to stop.
    Stop,
    /// `retire N`: site N is gone for good.
    Retire(u8),
    /// Any other line.
    Unknown,
}

/// What a line that retires a site begins with.
const RETIRE: &[u8] = b"retire ";

/// The number of a site, in one or two digits.
fn number_of(word: &[u8]) -> Option<u8> {
    match word {
        [digit @ b'0'..=b'9'] => Some(*digit - b'0'),
        [ten @ b'0'..=b'9', one @ b'0'..=b'9'] => Some((*ten - b'0') * 10 + (*one - b'0')),
        _ => None,
    }
}

impl Order {
    /// What a line, without its end, says.
    fn of(line: &[u8]) -> Order {
        if line == b"stop".as_slice() {
            return Order::Stop;
        }
        if !line.starts_with(RETIRE) {
            return Order::Unknown;
        }
        match number_of(line.split_at(RETIRE.len()).1) {
            Some(site) => Order::Retire(site),
            None => Order::Unknown,
        }
    }
}

/// Where the lines of an operator come from. It is read only where something is there, so that nobody waits for an operator; its end says
/// nothing.
#[derive(Drop)]
pub struct Operator<I> {
    reader: I,
    descriptor: RawFd,
    /// Whether the system tells when there is something to be read. Of a file it doesn't, which is never waited for.
    is_watched: bool,
    is_over: bool,
    /// What came of a line that hasn't ended.
    line: Vec<u8>,
}

impl<I: Read> Operator<I> {
    /// Lines that a reader gives, which reads from this descriptor and keeps nothing back.
    pub fn new(alloc: Global, reader: I, descriptor: RawFd) -> Operator<I> {
        Operator {
            reader,
            descriptor,
            is_watched: false,
            is_over: false,
            line: Vec::new(alloc),
        }
    }

    /// Has the system tell when something is there.
    pub(crate) fn watch(&mut self, registry: &Registry) {
        let told = registry.register(
            &mut SourceFd(&self.descriptor),
            OPERATOR,
            Interest::READABLE,
        );
        self.is_watched = told.is_ok();
    }

    /// Has it tell once more, also of what is there since.
    pub(crate) fn watch_on(&mut self, registry: &Registry) {
        if !self.is_watched {
            return;
        }
        if self.is_over {
            self.is_watched = false;
            let _gone = registry.deregister(&mut SourceFd(&self.descriptor));
            return;
        }
        let told = registry.reregister(
            &mut SourceFd(&self.descriptor),
            OPERATOR,
            Interest::READABLE,
        );
        self.is_over = told.is_err();
    }

    /// Adds a byte to the line. What the line says, if it ends by it.
    fn takes(&mut self, byte: u8) -> Option<Order> {
        if byte == b'\n' {
            let order = Order::of(self.line.as_slice());
            self.line.clear();
            return Some(order);
        }
        if self.line.len() < LONGEST {
            // where memory is refused the line is no order
            let _kept = self.line.push(byte);
        }
        None
    }

    /// Reads once, where something is there, and gives what the lines say that end by it.
    pub(crate) fn orders(&mut self, alloc: Global, is_told: bool) -> Vec<Order> {
        let mut orders = Vec::new(alloc);
        if self.is_over || (self.is_watched && !is_told) {
            return orders;
        }
        let mut piece = [0u8; PIECE];
        match self.reader.read(&mut piece) {
            Ok(0) | Err(_) => self.is_over = true,
            Ok(count) => {
                let (came, _) = piece.split_at(count);
                for byte in came {
                    if let Some(order) = self.takes(*byte) {
                        let _kept = orders.push(order);
                    }
                }
            }
        }
        orders
    }
}
