// The addresses of a subnet.
ghost use Rattle.std.specs.Prelude.{◌≡◌, ◌≤◌, ◌+◌, ◌-◌, ◌^◌, find, is_none, true};
ghost use Rattle.swarm_objects.specs.Rules.Networks.{subnet_breaks, subnet_rules};

/// The first and the last address that a task may have: the base, the gateway behind it and the subnet's last address
/// are left out.
#[tactic(auto, using(swarm_objects::proofs::Subnets::subnet_of))]
pub fn usable(base: u32, length: u8) -> (u32, u32)
    requires { is_none (find (subnet_breaks base length) subnet_rules) ≡ true }
    ensures first { result.0 ≡ base + 2 }
    ensures last { result.1 ≡ base + 2 ^ (32 - length) - 2 }
    ensures order { result.0 ≤ result.1 }
{
    let size = 2u32.pow(32 - u32::from(length));
    (base + 2, base + (size - 2))
}
