//! What calls answer and leave where memory is never wanted, and whether they do the same where one allocation is refused.
use crate::scene::{Scene, Stop};
use std::alloc::{AllocError, Global};
use std::io;
use std::rt::Clock;
use std::sync::Wait;

/// One call of the twin that is never refused memory.
#[derive(Drop)]
struct Turn {
    /// What stood when the call had only begun.
    begun: Vec<u8>,
    answer: Vec<u8>,
    /// What stood after the call.
    left: Vec<u8>,
    /// The answer as it is printed.
    line: String,
}

/// The calls of a scene as its twin made them.
#[derive(Drop)]
pub struct Course {
    name: String,
    opening: Vec<u8>,
    turns: Vec<Turn>,
    /// Where a call's answer, and what it left, are written. They have room for what is owed, so that writing it wants no memory.
    answer: Vec<u8>,
    state: Vec<u8>,
}

/// A byte as it stands in a line of text.
fn push_escaped(out: &mut String, byte: u8) -> Result<(), AllocError> {
    match byte {
        b'\r' => out.push_str("\\r"),
        b'\n' => out.push_str("\\n"),
        0x20..=0x7e => out.push(byte as char),
        _ => out.push('?'),
    }
}

/// Bytes as one line of text.
fn line_of(alloc: Global, bytes: &[u8]) -> Result<String, AllocError> {
    let mut text = String::new(alloc);
    for byte in bytes {
        push_escaped(&mut text, *byte)?;
    }
    Ok(text)
}

/// Makes the call at a place, and keeps what it answers and leaves.
fn turn_of<S: Scene, R: Wait + Clock>(
    rt: &R,
    alloc: Global,
    scene: &mut S,
    place: usize,
) -> Result<Turn, Stop> {
    let mut begun = Vec::new(alloc);
    let mut answer = Vec::new(alloc);
    let mut left = Vec::new(alloc);
    scene.begin(place)?;
    scene.show(rt, alloc, &mut begun)?;
    scene.call(rt, alloc, place, &mut answer)?;
    scene.show(rt, alloc, &mut left)?;
    let line = line_of(alloc, answer.as_slice())?;
    Ok(Turn {
        begun,
        answer,
        left,
        line,
    })
}

impl Course {
    /// Nothing yet of a scene of this name.
    pub fn new(alloc: Global, name: &str) -> Result<Course, AllocError> {
        Ok(Course {
            name: String::from_str(alloc, name)?,
            opening: Vec::new(alloc),
            turns: Vec::new(alloc),
            answer: Vec::new(alloc),
            state: Vec::new(alloc),
        })
    }

    /// Makes all calls, with memory, and keeps what they answer and leave.
    fn record<S: Scene, R: Wait + Clock>(
        &mut self,
        rt: &R,
        alloc: Global,
        scene: &mut S,
    ) -> Result<(), Stop> {
        scene.show(rt, alloc, &mut self.opening)?;
        let mut most = self.opening.len();
        for place in 0..scene.count() {
            let turn = turn_of(rt, alloc, scene, place)?;
            most = most.max(turn.answer.len()).max(turn.left.len());
            self.turns.push(turn)?;
        }
        let room = most.saturating_mul(2).saturating_add(4096);
        self.answer.reserve(room)?;
        self.state.reserve(room)?;
        Ok(())
    }

    /// What stood before the call at a place.
    fn before(&self, place: usize) -> &[u8] {
        let last = place.checked_sub(1).and_then(|last| self.turns.get(last));
        match last {
            Some(turn) => turn.left.as_slice(),
            None => self.opening.as_slice(),
        }
    }

    /// Writes down what stands. It is tried twice, since one allocation may be refused for it.
    fn look<S: Scene, R: Wait>(
        &mut self,
        rt: &R,
        alloc: Global,
        scene: &mut S,
    ) -> Result<(), AllocError> {
        self.state.clear();
        if scene.show(rt, alloc, &mut self.state).is_ok() {
            return Ok(());
        }
        self.state.clear();
        scene.show(rt, alloc, &mut self.state)
    }

    /// Whether that stands which stood before the call at a place.
    fn is_before(&self, place: usize) -> bool {
        self.before(place) == self.state.as_slice()
    }

    /// Whether that stands which stood when the call at a place had only begun.
    fn is_begun(&self, place: usize) -> bool {
        match self.turns.get(place) {
            Some(turn) => turn.begun.as_slice() == self.state.as_slice(),
            None => false,
        }
    }

    /// Behind a call that wanted memory stands what stood before it, or a flush that was due was carried out.
    fn compare_refused<S: Scene, R: Wait>(
        &mut self,
        rt: &R,
        alloc: Global,
        scene: &mut S,
        place: usize,
        glance: u64,
    ) -> Result<(), Stop> {
        let is_glance = scene.glance() == glance;
        self.look(rt, alloc, scene)?;
        let stands = if self.is_before(place) {
            is_glance
        } else {
            self.is_begun(place)
        };
        if stands {
            return Ok(());
        }
        Err(Stop::Wrong("a refused call left something else"))
    }

    /// A call that was made answers what the twin's did, and leaves what it left.
    fn compare_done<S: Scene, R: Wait>(
        &mut self,
        rt: &R,
        alloc: Global,
        scene: &mut S,
        place: usize,
    ) -> Result<(), Stop> {
        self.look(rt, alloc, scene)?;
        let Some(turn) = self.turns.get(place) else {
            return Err(Stop::Wrong("no such call"));
        };
        if turn.answer.as_slice() != self.answer.as_slice() {
            return Err(Stop::Wrong("another answer"));
        }
        if turn.left.as_slice() != self.state.as_slice() {
            return Err(Stop::Wrong("the call left something else"));
        }
        Ok(())
    }

    /// Makes the call at a place, and once more where memory was wanted for it.
    fn turn<S: Scene, R: Wait + Clock>(
        &mut self,
        rt: &R,
        alloc: Global,
        scene: &mut S,
        place: usize,
    ) -> Result<(), Stop> {
        for _attempt in 0..2 {
            self.answer.clear();
            let glance = scene.glance();
            match scene.call(rt, alloc, place, &mut self.answer) {
                Ok(()) => return self.compare_done(rt, alloc, scene, place),
                Err(Stop::Memory) => {
                    self.compare_refused(rt, alloc, scene, place, glance)?;
                }
                Err(Stop::Part) => {}
                Err(wrong) => return Err(wrong),
            }
        }
        Err(Stop::Memory)
    }

    /// Makes the calls anew at an equal scene, of whose allocations one may be refused, or all from one on, and prints what is
    /// answered. The first line printed is the name, and nothing is refused before it.
    fn play<S: Scene, R: Wait + Clock + Print>(
        &mut self,
        rt: &R,
        alloc: Global,
        scene: &mut S,
    ) -> io::Result<Result<(), Stop>> {
        println!(rt; "{}", self.name.as_str())?;
        for place in 0..self.turns.len() {
            if let Err(stop) = self.turn(rt, alloc, scene, place) {
                return Ok(Err(stop));
            }
            if let Some(turn) = self.turns.get(place) {
                println!(rt; "  {}", turn.line.as_str())?;
            }
        }
        Ok(Ok(()))
    }

    /// Makes the calls of a scene: for the first time and with memory, or anew at an equal scene.
    pub fn carry_out<S: Scene, R: Wait + Clock + Print>(
        &mut self,
        rt: &R,
        alloc: Global,
        scene: &mut S,
    ) -> io::Result<Result<(), Stop>> {
        if self.turns.is_empty() {
            return Ok(self.record(rt, alloc, scene));
        }
        self.play(rt, alloc, scene)
    }
}
