// Texts of forests, made by a small generator of numbers.
ghost use Rattle.std.specs.Prelude.{◌<◌, ◌≤◌};

use sel_base::NoMemory;
use std::alloc::Global;

/// The most nodes that a made tree has.
pub const MOST_NODES: u64 = 60;

fn count_of_words(line: &str) -> u64 {
    let mut count: u64 = 0;
    for _ in line.split(' ') {
        count = count.saturating_add(1);
    }
    count
}

/// Numbers that follow from a first one, by a linear congruential step (Knuth's of 64 bits).
#[derive(Clone, Copy)]
pub struct Chance {
    pub state: u64,
}

impl Chance {
    /// A number below the given one. The step's high bits are taken, since its low ones repeat early.
    fn below(&mut self, limit: u64) -> u64
        requires { 0 < limit }
        ensures { result < limit }
    {
        self.state = self
            .state
            .wrapping_mul(6_364_136_223_846_793_005)
            .wrapping_add(1_442_695_040_888_963_407);
        (self.state >> 33) % limit
    }

    /// One of the line's words. `''` is the empty word.
    fn one_of<'a>(&mut self, line: &'a str) -> &'a str {
        let count = count_of_words(line);
        if count == 0 {
            return "";
        }
        let at = self.below(count) as usize;
        match line.split(' ').nth(at) {
            Some(word) => { if word == "''" { "" } else { word } }
            None => "",
        }
    }
}

/// The names of the operators without kids, with one and with two, and what may stand behind a name: an
/// attribute with its colon, or nothing: a line of words each. What stands here twice comes twice as often.
#[derive(Clone, Copy)]
pub struct Material<'a> {
    pub leaves: &'a str,
    pub unary: &'a str,
    pub binary: &'a str,
    pub attributes: &'a str,
}

// What is still to be written: a tree of so many nodes, or a byte.
#[derive(Clone, Copy, Drop)]
enum Task {
    Tree(u64),
    Byte(u8),
}

fn put_name(
    chance: &mut Chance,
    material: &Material<'_>,
    names: &str,
    text: &mut Vec<u8>,
) -> Result<(), NoMemory> {
    text.extend_from_slice(chance.one_of(names).as_bytes())?;
    text.extend_from_slice(chance.one_of(material.attributes).as_bytes())?;
    Ok(())
}

// Leaves a tree of so many nodes, and a byte behind it.
fn put_tasks(tasks: &mut Vec<Task>, size: u64, byte: u8) -> Result<(), NoMemory> {
    tasks.push(Task::Byte(byte))?;
    tasks.push(Task::Tree(size))?;
    Ok(())
}

fn put_unary(
    chance: &mut Chance,
    material: &Material<'_>,
    size: u64,
    tasks: &mut Vec<Task>,
    text: &mut Vec<u8>,
) -> Result<(), NoMemory>
    requires { 2 ≤ size }
{
    put_name(chance, material, material.unary, text)?;
    text.push(b'(')?;
    put_tasks(tasks, size - 1, b')')
}

fn put_binary(
    chance: &mut Chance,
    material: &Material<'_>,
    size: u64,
    tasks: &mut Vec<Task>,
    text: &mut Vec<u8>,
) -> Result<(), NoMemory>
    requires { 3 ≤ size }
{
    put_name(chance, material, material.binary, text)?;
    let left = chance.below(size - 2) + 1;
    text.push(b'(')?;
    put_tasks(tasks, size - 1 - left, b')')?;
    put_tasks(tasks, left, b',')
}

// Writes the root of a tree of so many nodes, and leaves the rest as tasks, the next one last.
fn put_root(
    chance: &mut Chance,
    material: &Material<'_>,
    size: u64,
    tasks: &mut Vec<Task>,
    text: &mut Vec<u8>,
) -> Result<(), NoMemory> {
    if size < 2 {
        put_name(chance, material, material.leaves, text)
    } else if size == 2 || chance.below(3) == 0 {
        put_unary(chance, material, size, tasks, text)
    } else {
        put_binary(chance, material, size, tasks, text)
    }
}

// Writes a tree of so many nodes. Beside its root, each node leaves two tasks at most: a tree and a byte.
fn put_tree(
    alloc: Global,
    chance: &mut Chance,
    material: &Material<'_>,
    size: u64,
    text: &mut Vec<u8>,
) -> Result<(), NoMemory>
    requires { size ≤ 60 }
{
    let mut tasks = Vec::new(alloc);
    tasks.push(Task::Tree(size))?;
    for _ in 0..2 * size {
        match tasks.pop() {
            Some(Task::Tree(size)) => put_root(chance, material, size, &mut tasks, text)?,
            Some(Task::Byte(byte)) => text.push(byte)?,
            None => return Ok(()),
        }
    }
    Ok(())
}

/// The text of so many trees, a line each, of one to sixty nodes: small ones come more often.
pub fn made_trees(
    alloc: Global,
    seed: u64,
    material: &Material<'_>,
    trees: u32,
) -> Result<Vec<u8>, NoMemory> {
    let mut chance = Chance { state: seed };
    let mut text = Vec::new(alloc);
    for _ in 0..trees {
        let most = chance.below(MOST_NODES) + 1;
        let size = chance.below(most) + 1;
        put_tree(alloc, &mut chance, material, size, &mut text)?;
        text.push(b'\n')?;
    }
    Ok(text)
}
