//! Laws of where a session's next descriptors go. Each call does nothing: its contract is the law.
ghost use Rattle.lvm_tie.specs.Spares.{
  CallsSpareDescriptors,
  OverLeavesDescriptors,
  TiedLeavesDescriptors,
  TurnSparesDescriptors,
};

/// No transfer that is out goes to a slot of descriptors, of a session that is tied or over.
pub fn transfers_leave_descriptors()
    ensures tied { TiedLeavesDescriptors }
    ensures over { OverLeavesDescriptors }
{}

/// Where it is so, what spared the newest descriptors goes on to spare them, over each turn and each call of a client.
pub fn descriptors_are_spared()
    ensures turn { TurnSparesDescriptors }
    ensures calls { CallsSpareDescriptors }
{}
