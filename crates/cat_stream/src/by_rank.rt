//! Packets by rank of their senders.
ghost use Rattle.std.specs.Prelude.{◌≡◌, ℕ, length, IfOk};
ghost use Rattle.block_pool.specs.Handles.{PoolName, AreOfPool};
ghost use Rattle.mix_stream.specs.Packets.{bytes_from, blocks_in, Rises};

use dia_edge::NoMemory;
use multiplexer::Packet;

/// The packets by rank of their senders, each sender's in their order.
pub(crate) fn by_rank(packets: Vec<Packet>) -> Result<Vec<Packet>, NoMemory>
    ensures bytes { IfOk result (λ v. (k : ℕ) → bytes_from k v.items ≡ bytes_from k packets.items) }
    ensures rank { IfOk result (λ v. Rises 0 v.items) }
    ensures count { IfOk result (λ v. length v.items ≡ length packets.items) }
    ensures pools { IfOk result (λ v. (pool : PoolName) → AreOfPool pool (blocks_in packets.items) → AreOfPool pool (blocks_in v.items)) }
{
    let mut packets = packets;
    packets.sort_by_key(|packet| packet.from)?;
    Ok(packets)
}
