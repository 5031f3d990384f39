//! Making a number of servers, and reading it.
ghost use Rattle.std.specs.Prelude.{◌≡◌};
ghost use Rattle.server.specs.Counts.{Counted};

use super::ServerCount;
use pronto::SERVERS;

impl ServerCount {
    /// That many servers; `None` exactly where the number is 0 or above 8.
    pub fn new(count: u64) -> Option<ServerCount>
        ensures { Counted result count }
    {
        let count = u8::try_from(count)
            .ok()
            .filter(|count| (1..=SERVERS as u8).contains(count))?;
        Some(ServerCount { count })
    }

    /// The number.
    pub fn get(&self) -> u8
        ensures { result ≡ self.now.count }
    {
        self.count
    }
}
