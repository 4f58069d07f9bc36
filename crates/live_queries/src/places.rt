//! Whether there is a place for one more pool, group, object or kernel object, and the number that it gets.

ghost use Rattle.std.specs.Prelude.{◌≡◌, ◌+◌, length, nat_le};

use world_reads::Reads;

/// Whether there is no place for one more pool.
pub fn lacks_pool<W: Reads>(world: &W) -> bool
    ensures { result ≡ nat_le (W.world_of world.now).limits.pools (length (W.world_of world.now).pools) }
{
    world.limits().pools <= world.next_pool()
}

/// Whether there is no place for one more group.
pub fn lacks_group<W: Reads>(world: &W) -> bool
    ensures { result ≡ nat_le (W.world_of world.now).limits.groups (length (W.world_of world.now).groups) }
{
    world.limits().groups <= world.groups()
}

/// The number that the next group gets.
pub fn next_group<W: Reads>(world: &W) -> u32
    ensures { result ≡ length (W.world_of world.now).groups + 1 }
{
    world.is_reachable();
    world.groups() + 1
}

/// Whether there is no place for one more object.
pub fn lacks_object<W: Reads>(world: &W) -> bool
    ensures { result ≡ nat_le (W.world_of world.now).limits.objects (length (W.world_of world.now).objects) }
{
    world.limits().objects <= world.objects()
}

/// The number that the next object gets.
pub fn next_object<W: Reads>(world: &W) -> u32
    ensures { result ≡ length (W.world_of world.now).objects + 1 }
{
    world.is_reachable();
    world.objects() + 1
}

/// Whether there is no place for one more kernel object.
pub fn lacks_kernel<W: Reads>(world: &W) -> bool
    ensures { result ≡ nat_le (W.world_of world.now).limits.kernels (length (W.world_of world.now).kernels) }
{
    world.limits().kernels <= world.kernels()
}

/// The number that the next kernel object gets.
pub fn next_kernel<W: Reads>(world: &W) -> u32
    ensures { result ≡ length (W.world_of world.now).kernels + 1 }
{
    world.is_reachable();
    world.kernels() + 1
}
