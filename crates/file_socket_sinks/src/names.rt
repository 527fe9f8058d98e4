//! What the names of sources and sinks spell.

ghost use Rattle.std.specs.Prelude.{◌≡◌, ◌∷◌, ◌++◌, List, ℕ, IfSome, IsSomeAnd, MatchOption};
ghost use Rattle.file_socket_sinks.specs.{declared.names.Address.{Address}, declared.names.SourceName.{SourceName}, declared.names.SinkName.{SinkName}};
ghost use Rattle.file_socket_sinks.specs.Names.{Lacks, SplitsAddress, SpellsPort, SpellsAddress, SpellsSource, SpellsSink};

use std::io;
use std::net::{TcpListener, TcpStream};

/// A host, by its name or its IP address, and a port.
#[derive(Clone, Copy, PartialEq, Eq)]
pub struct Address<'a> {
    pub host: &'a str,
    pub port: u16,
}

/// What a source is read from.
#[derive(Clone, Copy, PartialEq, Eq)]
pub enum SourceName<'a> {
    /// `file:PATH`: the file of this path.
    File(&'a str),
    /// `stdin:`: standard input.
    Input,
    /// `connect:HOST:PORT`: a connection that is made.
    Connect(Address<'a>),
    /// `listen:HOST:PORT`: a connection that is accepted.
    Listen(Address<'a>),
}

/// What a sink is written to.
#[derive(Clone, Copy, PartialEq, Eq)]
pub enum SinkName<'a> {
    /// `file:PATH`: the file of this path.
    File(&'a str),
    /// `connect:HOST:PORT`: a connection that is made.
    Connect(Address<'a>),
}

// The number that decimal digits spell.
fn port_of(digits: &str) -> Option<u16>
    ensures { MatchOption result ((port : ℕ) → ¬ (SpellsPort digits.now port)) (SpellsPort digits.now) }
{
    if digits.starts_with('+') {
        return None;
    }
    digits.parse::<u16>().ok()
}

// The host and the digits of what stands after a bracket.
fn bracketed<'a>(inside: &'a str) -> Option<(&'a str, &'a str)>
    ensures splits { IfSome result (λ p. (inside.now ≡ p.0.now ++ (93 ∷ 58 ∷ p.1.now)) × Lacks 93 p.0.now) }
    ensures only { (host digits : List ℕ) → inside.now ≡ host ++ (93 ∷ 58 ∷ digits) → Lacks 93 host
        → IsSomeAnd result (λ p. (p.0.now ≡ host) × (p.1.now ≡ digits)) }
{
    let (host, rest) = inside.split_once(']')?;
    let digits = rest.strip_prefix(':')?;
    Some((host, digits))
}

// The host and the digits.
fn parts_of<'a>(text: &'a str) -> Option<(&'a str, &'a str)>
    ensures splits { IfSome result (λ p. SplitsAddress text.now p.0.now p.1.now) }
    ensures only { (host digits : List ℕ) → SplitsAddress text.now host digits
        → IsSomeAnd result (λ p. (p.0.now ≡ host) × (p.1.now ≡ digits)) }
{
    match text.strip_prefix('[') {
        Some(inside) => bracketed(inside),
        None => text.split_once(':'),
    }
}

impl Address<'_> {
    /// What `HOST:PORT` spells. PORT is of decimal digits, from 0 to 65535. A host that holds a colon, as an IPv6
    /// address does, stands in brackets: `[::1]:80`.
    pub fn parse<'a>(text: &'a str) -> Option<Address<'a>>
        ensures { MatchOption result ((address : Address) → ¬ (SpellsAddress text.now address)) (SpellsAddress text.now) }
    {
        let (host, digits) = parts_of(text)?;
        let port = port_of(digits)?;
        Some(Address { host, port })
    }

    /// Connects to it. Of the addresses of a name each is tried, until one answers.
    pub fn connect(&self, rt: &HostRuntime) -> io::Result<TcpStream> {
        TcpStream::connect(rt, (self.host, self.port))
    }

    /// Listens at it until a peer connects, and answers that connection. Others are refused from then on.
    pub fn accept(&self, rt: &HostRuntime) -> io::Result<TcpStream> {
        let (stream, _) = self.listen(rt)?.accept()?;
        Ok(stream)
    }

    /// Listens at it. A peer may connect from then on.
    pub fn listen(&self, rt: &HostRuntime) -> io::Result<TcpListener> {
        TcpListener::bind(rt, (self.host, self.port))
    }
}

impl SourceName<'_> {
    /// What the name of a source spells, or none where it is of another form.
    pub fn parse<'a>(name: &'a str) -> Option<SourceName<'a>>
        ensures { MatchOption result ((source : SourceName) → ¬ (SpellsSource name.now source)) (SpellsSource name.now) }
    {
        if name == "stdin:" {
            return Some(SourceName::Input);
        }
        if let Some(path) = name.strip_prefix("file:") {
            return Some(SourceName::File(path));
        }
        if let Some(text) = name.strip_prefix("connect:") {
            return Some(SourceName::Connect(Address::parse(text)?));
        }
        let text = name.strip_prefix("listen:")?;
        Some(SourceName::Listen(Address::parse(text)?))
    }
}

impl SinkName<'_> {
    /// What the name of a sink spells, or none where it is of another form.
    pub fn parse<'a>(name: &'a str) -> Option<SinkName<'a>>
        ensures { MatchOption result ((sink : SinkName) → ¬ (SpellsSink name.now sink)) (SpellsSink name.now) }
    {
        if let Some(path) = name.strip_prefix("file:") {
            return Some(SinkName::File(path));
        }
        let text = name.strip_prefix("connect:")?;
        Some(SinkName::Connect(Address::parse(text)?))
    }
}
